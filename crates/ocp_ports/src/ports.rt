//! Where a command reads and writes.

ghost use Rattle.std.specs.Prelude.{◌≡◌, ◌<◌, ◌≤◌, ◌-◌, ◌^◌, ℕ, List, Option, None, IfSome, is_some, length};
ghost use Rattle.ocp_ports.specs.Ports.{Takes, Puts, failures};

/// What a command reads from.
pub trait Source {
    // The octets that are left, if they are known.
    ghost remaining: { Self → Option (List ℕ) } = { λ _. None };

    // How many reads failed.
    ghost failed_reads: { Self → ℕ };

    /// Reads some octets to the start of the buffer, or fails. It reads none only at the end.
    fn read(&mut self, buffer: &mut [u8]) -> Option<usize>
        requires { failed_reads self.old < 2 ^ 64 - 1 }
        ensures bound { IfSome result (λ count. count ≤ length buffer.new) }
        ensures octets { Takes (remaining self.old) (remaining self.new) result buffer.new }
        ensures count { failed_reads self.new ≡ failures (is_some result) (failed_reads self.old) };
}

/// What a command writes to.
pub trait Sink {
    // The octets that were written, if they are known.
    ghost contents: { Self → Option (List ℕ) } = { λ _. None };

    // How many writes failed.
    ghost failed_writes: { Self → ℕ };

    /// Writes a prefix of the octets that is not empty, or fails.
    fn write(&mut self, octets: &[u8]) -> Option<usize>
        requires room { failed_writes self.old < 2 ^ 64 - 1 }
        requires some { 0 < length octets.now }
        ensures bound { IfSome result (λ count. count ≤ length octets.now) }
        ensures moves { IfSome result (λ count. 0 < count) }
        ensures octets { Puts (contents self.old) (contents self.new) result octets.now }
        ensures count { failed_writes self.new ≡
            failures (is_some result) (failed_writes self.old) };
}
