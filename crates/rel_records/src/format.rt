// Which records a store of which format may have.
ghost use Rattle.std.specs.Prelude.{◌≡◌};
ghost use Rattle.std.specs.List.{list_any};
ghost use Rattle.rel_list.specs.Status.{is_one_shot};
ghost use Rattle.rel_records.specs.Format.{allows, may_write_it, writes_one_shot};
ghost use Rattle.rel_records.specs.Parts.{record_read};

use crate::assignment::Assignment;
use crate::imaged::Imaged;
use crate::reading::Record;

// Whether a store of this format may have the record.
pub(crate) fn allows(format: u8, said: &Record) -> bool
    ensures { result ≡ allows format (record_read said.now) }
{
    may_write_it(format, said) || !writes_one_shot(said)
}

// Whether the record may write the status `one_shot` in such a store.
fn may_write_it(format: u8, said: &Record) -> bool
    ensures { result ≡ may_write_it format (record_read said.now) }
{
    match said {
        Record::Image(_) => false,
        Record::Statuses(_) | Record::Made(_) | Record::Unpacked(_) | Record::Removed(_) => {
            format == 2
        }
    }
}

// Whether the record writes the status `one_shot`.
fn writes_one_shot(said: &Record) -> bool
    ensures { result ≡ writes_one_shot (record_read said.now) }
{
    match said {
        Record::Statuses(assignments) => assigns_one_shot(assignments.as_slice()),
        Record::Image(image) => has_one_shot(image.releases.as_slice()),
        Record::Made(_) | Record::Unpacked(_) | Record::Removed(_) => false,
    }
}

fn assigns_one_shot(assignments: &[Assignment]) -> bool
    ensures { result ≡ list_any (λ a. is_one_shot a.status) assignments.now }
{
    assignments
        .iter()
        .any(|assignment| assignment.status.is_one_shot())
}

fn has_one_shot(releases: &[Imaged]) -> bool
    ensures { result ≡ list_any (λ x. is_one_shot x.status) releases.now }
{
    releases.iter().any(|imaged| imaged.status.is_one_shot())
}
