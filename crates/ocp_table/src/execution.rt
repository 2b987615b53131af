//! A program and the machine that runs it.
ghost use Rattle.std.specs.Prelude.{◌≡◌, ◌≤◌, ◌==◌, ◌&&◌, ◌↔◌, [], Err, Some, None, IfErr, IfOk, IsOk, IsTrue, OnErr, OnOk, length};
ghost use Rattle.ocp_table.specs.Clauses.{HasAddressesOf, HasMemoryOf, IsWithin, STACK_OCTETS, StandsIn, fault_of_program, less, load_result, local_run, machine_at_restart, machine_at_start, machine_by_outcome, machine_of_saved, mailbox_by_outcome, one_step, outcome_of, pool_by_outcome, record_of_saved, work_octets};

use crate::{InstructionOutcome, ProcedureFault, Saved, SavedFault};
use bpf_step::laws::machines_started_anew_are_as_new;
use bpf_step::{Local, Machine, Need};
use ocp_loader::laws::places_lead_to_places;
use ocp_loader::{Lines, LoadFault, Program};
use ocp_pool::{Mailbox, Pool, engine_call};
use ocp_profile::Profile;
use ocp_regions::ARGUMENT_OCTETS;
use ocp_regions::laws::addresses_are_those_of_the_regions;
use std::alloc::{AllocError, Allocator};
use std::marker::Model;

/// A program and the machine that runs it, each with room for any image and profile. The machine
/// is always at an instruction of the program.
#[derive(Drop)]
pub struct Execution<A: Allocator> {
    program: Program<A>,
    machine: Machine<A>,
}

impl<A: Allocator> Model for Execution<A> {
    ghost use Rattle.ocp_table.specs.Records.{Execution as Pair};

    ghost Value = { Pair };

    ghost use Rattle.ocp_table.specs.Mirror.Codes.{execution_code};

    ghost coded = { execution_code };

    ghost use Rattle.ocp_table.specs.Records.{IsAdmittedAt};

    ghost view = { λ e. record { image = e.program; machine = e.machine } };

    ghost invariant = { λ e. IsAdmittedAt e.program e.machine };
}

impl<A: Allocator> Execution<A> {
    /// The program of one exit, and a machine of a profile at it.
    pub(crate) fn new(alloc: A, profile: Profile) -> Result<Self, AllocError>
    where
        A: Copy,
        ensures { IfOk result (λ e. HasMemoryOf profile e.machine) }
    {
        machines_started_anew_are_as_new();
        Ok(Execution {
            program: Program::exit(alloc)?,
            machine: Machine::new(alloc, profile)?,
        })
    }

    /// Becomes the program of an image that may be run under the profile, and a machine at its
    /// first instruction. Else it is refused with the image's first fault, and nothing is changed.
    pub(crate) fn load(
        &mut self,
        lines: &mut Lines<A>,
        profile: Profile,
        code: &[u8],
    ) -> Result<(), LoadFault>
        requires { HasMemoryOf profile self.old.machine }
        ensures ok { OnOk result (self.new ≡
            record { image = code.now; machine = machine_at_start profile [] }) }
        ensures admitted { OnOk result (IsOk (load_result profile code.now)) }
        ensures err { IfErr result (λ fault. load_result profile code.now ≡ Err fault) }
        ensures kept { OnErr result (self.new ≡ self.old) }
        ensures own { HasMemoryOf profile self.new.machine }
    {
        machines_started_anew_are_as_new();
        self.program.reload(lines, profile, code)?;
        self.machine.renew();
        Ok(())
    }

    /// Becomes the program of a saved image, which may be run under the profile, and the machine
    /// that was saved in it. Refused with the first fault of the image and of what stands in it.
    pub(crate) fn resume(
        &mut self,
        lines: &mut Lines<A>,
        profile: Profile,
        saved: &Saved<'_>,
    ) -> Result<(), SavedFault>
        requires own { HasMemoryOf profile self.old.machine }
        requires stack { length saved.now.memory.stack.now ≡ STACK_OCTETS }
        requires arguments { length saved.now.memory.arguments.now ≡ ARGUMENT_OCTETS }
        requires work { length saved.now.memory.work.now ≡ work_octets profile }
        ensures ok { OnOk result (self.new ≡
            record { image = saved.now.code.now; machine = machine_of_saved saved.now }) }
        ensures sound { OnOk result (fault_of_program (load_result profile saved.now.code.now)
            (record_of_saved saved.now) ≡ None) }
        ensures err { IfErr result (λ fault. fault_of_program
            (load_result profile saved.now.code.now) (record_of_saved saved.now) ≡ Some fault) }
        ensures own { HasMemoryOf profile self.new.machine }
    {
        addresses_are_those_of_the_regions();
        machines_started_anew_are_as_new();
        if let Err(fault) = self.load(lines, profile, saved.code) {
            return Err(SavedFault::Image(fault));
        }
        if let Some(fault) = saved.machine_fault(&self.program) {
            return Err(fault);
        }
        self.machine
            .resume(saved.registers, saved.place, saved.frames, saved.memory);
        Ok(())
    }

    /// The same program and a machine like this one, in memory of their own.
    pub(crate) fn copy(&self, alloc: A) -> Result<Self, AllocError>
    where
        A: Copy,
        ensures { IfOk result (λ e. e ≡ self.now) }
    {
        Ok(Execution {
            program: self.program.copy(alloc)?,
            machine: self.machine.copy(alloc)?,
        })
    }

    /// Becomes equal to another one, whose machine's memory has the same addresses. A program that
    /// is equal already is not copied.
    pub(crate) fn copy_from(&mut self, other: &Execution<A>)
        requires { HasAddressesOf self.old.machine other.now.machine }
        ensures { self.new ≡ other.now }
    {
        self.machine.copy_from(&other.machine);
        if !self.program.is_same(&other.program) {
            self.program.copy_from(&other.program);
        }
    }

    /// The machine.
    #[inline(always)]
    pub fn machine(&self) -> &Machine<A>
        ensures value { result.now ≡ self.now.machine }
        ensures stands { StandsIn self.now.image self.now.machine }
    {
        &self.machine
    }

    /// Whether the images and the machines are the same.
    pub(crate) fn is_same(&self, other: &Execution<A>) -> bool
        ensures same { IsTrue result ↔ (self.now ≡ other.now) }
        ensures stands { StandsIn self.now.image self.now.machine }
    {
        self.machine.is_same(&other.machine) && self.program.is_same(&other.program)
    }

    /// Takes another machine and gives its own for it.
    pub(crate) fn settle(&mut self, machine: &mut Machine<A>)
        requires stands { StandsIn self.old.image machine.old }
        ensures image { self.new.image ≡ self.old.image }
        ensures machine { self.new.machine ≡ machine.old }
        ensures given { machine.new ≡ self.old.machine }
    {
        self.machine.exchange(machine);
    }

    /// Restarts the machine with at most 256 octets of arguments.
    pub(crate) fn start(&mut self, arguments: &[u8])
        requires { length arguments.now ≤ ARGUMENT_OCTETS }
        ensures image { self.new.image ≡ self.old.image }
        ensures machine { self.new.machine ≡ machine_at_restart arguments.now self.old.machine }
    {
        self.machine.start(arguments);
    }

    /// Does one instruction. There always is one.
    #[inline(always)]
    pub(crate) fn step(&mut self, pool: &mut Pool<A>, mailbox: &mut Mailbox) -> InstructionOutcome
        ensures outcome { Some result ≡
            outcome_of (one_step self.old.image self.old.machine) self.old.machine pool.old
            mailbox.old }
        ensures pool { pool.new ≡ pool_by_outcome result pool.old }
        ensures mailbox { mailbox.new ≡ mailbox_by_outcome result mailbox.old }
        ensures image { self.new.image ≡ self.old.image }
        ensures machine { self.new.machine ≡
            machine_by_outcome result self.old.image self.old.machine }
    {
        places_lead_to_places();
        match self.machine.local_step(&self.program) {
            Local::Stepped => InstructionOutcome::Ran,
            Local::NeedsEngine(Need::LastExit) => InstructionOutcome::Ended,
            Local::NeedsEngine(Need::Fault(fault)) => {
                InstructionOutcome::Faulted(ProcedureFault::Machine(fault))
            }
            Local::NeedsEngine(Need::Call(number)) => {
                match engine_call(number, &mut self.machine, pool, mailbox) {
                    Ok(called) => InstructionOutcome::Called(called),
                    Err(fault) => InstructionOutcome::Faulted(ProcedureFault::Pool(fault)),
                }
            }
        }
    }

    /// Does instructions that need no engine, up to `budget` and what remains of the procedure's
    /// budget, takes their number from what remains, and returns it. It stops before a breakpoint,
    /// but the pass flag lets the first instruction pass one. The first one clears the flag.
    #[inline(always)]
    pub(crate) fn advance(
        &mut self,
        breakpoints: &[u16],
        pass: &mut bool,
        remaining: &mut Option<u32>,
        budget: u32,
    ) -> u32
        ensures ran { local_run self.old.image breakpoints.now pass.old self.old.machine result ≡
            Some self.new.machine }
        ensures within { result ≤ budget }
        ensures left { IsWithin remaining.old result }
        ensures image { self.new.image ≡ self.old.image }
        ensures pass { pass.new ≡ (pass.old && (result == 0)) }
        ensures remaining { remaining.new ≡ less result remaining.old }
    {
        let most = remaining.map_or(budget, |left| budget.min(left));
        let count = self.machine.run(&self.program, breakpoints, *pass, most);
        if count > 0 {
            *pass = false;
        }
        if let Some(left) = remaining {
            *left -= count;
        }
        count
    }

    /// The program.
    pub fn program(&self) -> &Program<A>
        ensures value { result.now ≡ self.now.image }
        ensures stands { StandsIn self.now.image self.now.machine }
    {
        &self.program
    }
}
