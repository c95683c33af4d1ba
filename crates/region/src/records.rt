// A region file that is read record after record.
ghost use Rattle.std.specs.Prelude.{◌≡◌, ◌≤◌};
ghost use Rattle.format.specs.Limits.{widest};
ghost use Rattle.format.specs.Records.{width_of};
ghost use Rattle.region.specs.Reached.{Reached};

use super::difference::Difference;
use super::files::Refused;
use super::record::{Record, read_record};
use super::width::{first_at, width_fault, width_of};

// A file, the width that its kind 1 record states, how many of its differences were read, and where the next record starts. Those are accepted.
#[derive(Clone, Copy, Debug, PartialEq, Eq)]
pub(crate) struct Records<'a> {
    file: &'a [u8],
    pub(crate) width: usize,
    pub(crate) count: usize,
    place: usize,
    ghost states: { width ≡ width_of file.now },
    ghost narrow: { width ≤ widest },
    ghost reached: { Reached file.now place count },
}

impl<'a> Records<'a> {
    ghost use Rattle.region.specs.Reader.{BegunIs, TurnIs};

    // A file before its first difference, where its kind 1 record is accepted.
    pub(crate) fn begin(file: &'a [u8]) -> Result<Records<'a>, Refused>
        ensures { BegunIs file.entry result }
    {
        let width = width_of(file);
        if let Err(refusal) = width_fault(file) {
            return Err(Refused {
                refusal,
                offset: 0,
                width,
            });
        }
        Ok(Records {
            file,
            width,
            count: 0,
            place: first_at(file),
        })
    }

    // Reads one difference more; at the end of the file there is none.
    pub(crate) fn read(&mut self) -> Result<Option<Difference<'a>>, Refused>
        ensures { TurnIs self.old self.new result }
    {
        let Records {
            file,
            width,
            count,
            place,
        } = *self;
        if file.len() <= place {
            return Ok(None);
        }
        match read_record(file, place, width, count) {
            Ok(Record { difference, next }) => {
                *self = Records {
                    file,
                    width,
                    count: count + 1,
                    place: next,
                };
                Ok(Some(difference))
            }
            Err(refusal) => Err(Refused {
                refusal,
                offset: place,
                width,
            }),
        }
    }
}
