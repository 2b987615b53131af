//! Fields of service data, one after the other.

ghost use Rattle.std.specs.Prelude.{◌≡◌, ◌≤◌, ◌<◌, ◌^◌, ◌+◌, ◌*◌, ◌++◌, length, All};
ghost use Rattle.std.specs.List.{flat_map};
ghost use Rattle.arrayvec.specs.ArrayVec.{array_vec_len};
ghost use Rattle.byteorder.specs.Endian.{big_bytes};
ghost use Rattle.obcp_messages.specs.Report.{row_data};

use arrayvec::ArrayVec;
use obcp_types::StatusRow;

/// The most octets of fields, except the octets at the end of a request: those of a communicate
/// request with 8 words.
pub const MAX_FIELDS_LENGTH: usize = 67;

/// The fields of a report, or of a request except the octets at its end.
pub type Fields = ArrayVec<u8, MAX_FIELDS_LENGTH>;

/// Appends octets. Of a number they are `to_be_bytes`.
pub(crate) fn put(fields: &mut Fields, octets: &[u8])
    requires { array_vec_len fields.old + length octets.now ≤ MAX_FIELDS_LENGTH }
    ensures { fields.new.items ≡ fields.old.items ++ octets.now }
{
    fields.try_extend_from_slice(octets).unwrap();
}

/// Words of 64 bits.
pub(crate) fn put_words(fields: &mut Fields, words: &[u64])
    requires { array_vec_len fields.old + 8 * length words.now ≤ MAX_FIELDS_LENGTH }
    ensures octets { fields.new.items ≡ fields.old.items ++ flat_map (big_bytes 8) words.now }
    ensures in_range { All (λ word. word < 2 ^ 64) words.now }
{
    for word in words {
        put(fields, &word.to_be_bytes());
    }
}

/// The rows of a status report.
pub(crate) fn put_rows(fields: &mut Fields, rows: &[StatusRow])
    requires { array_vec_len fields.old + 3 * length rows.now ≤ MAX_FIELDS_LENGTH }
    ensures octets { fields.new.items ≡ fields.old.items ++ flat_map row_data rows.now }
    ensures in_range { All (λ row. row.id < 2 ^ 16) rows.now }
{
    for row in rows {
        put(fields, &row.id.to_be_bytes());
        put(fields, &[row.status.code()]);
    }
}
