// The fields of tables and strata: counts.
ghost use Rattle.std.specs.Prelude.{◌≡◌, ◌≤◌, IfOk};
ghost use Rattle.table_reader.specs.Counts.{count_in};
ghost use Rattle.table_reader.specs.declared.TheConstants.{MOST_COUNT};

use crate::MOST_COUNT;
use number_text::read_count;
use record_reader::Kind;

// The count of a field.
pub(crate) fn count_in(text: &[u8]) -> Result<u64, Kind>
    ensures count { result ≡ count_in text.now }
    ensures at_most { IfOk result (λ count. count ≤ MOST_COUNT) }
{
    read_count(text, MOST_COUNT).ok_or(Kind::NotCount)
}
