// A log read field by field, by the reading checks alone, up to the one that is asked for.
ghost use Rattle.std.specs.Prelude.{◌≡◌, ◌≤◌};
ghost use Rattle.fields.specs.Limits.{log_fields, log_mallocs};
ghost use Rattle.fields.specs.Read.{read_field};
ghost use Rattle.rules.specs.Showing.{mallocs_of};
ghost use Rattle.show.specs.Seeking.{front_of, seek_from};

use fields::{Field, Log, ShortLog, read_field, value_length};
use judge::act_of;
use rules::{Change, Part};

// A field that passes the reading checks: its size, and the mallocs up to it and with it.
#[derive(Clone, Copy)]
pub struct Front {
    pub size: usize,
    pub mallocs: u32,
}

fn mallocs_of(field: Field) -> u32
    ensures { result ≡ mallocs_of field }
{
    u32::from(matches!(act_of(field).change, Change::Allocate(..)))
}

fn read_front(part: &[u8], before: u32) -> Option<Front>
    requires { before ≤ log_mallocs }
    ensures { result ≡ front_of before (read_field part.now) }
{
    // which place the part has is not asked here
    let (field, _) = read_field(part, 0).ok()?;
    let mallocs = before + mallocs_of(field);
    if (Log::MALLOCS as u32) < mallocs {
        return None;
    }
    Some(Front {
        size: Field::HEADER + usize::from(value_length(field.tag)),
        mallocs,
    })
}

pub fn seek(log: ShortLog<'_>, number: u32) -> Option<Part>
    ensures { result ≡ seek_from log_fields 0 log.entry.bytes.now 0 number }
{
    // 3: no log has so many fields
    if (Log::FIELDS as u32) <= number {
        return None;
    }
    let mut at = 0;
    let mut mallocs = 0;
    for _passed in 0..number {
        let front = read_front(&log.bytes[at..], mallocs)?;
        at += front.size;
        mallocs = front.mallocs;
    }
    let front = read_front(&log.bytes[at..], mallocs)?;
    Some(Part {
        at,
        size: front.size,
    })
}
