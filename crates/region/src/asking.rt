// A file that is read from its start to its end, and membership in it, asked meanwhile.
ghost use Rattle.region.specs.Reader.{AskedIs};

use super::files::Refused;
use super::records::Records;

// The width of an accepted file, how many differences it has, and the index of the first of them that holds the header asked for.
#[derive(Clone, Copy, Debug, PartialEq, Eq)]
pub(crate) struct Asked {
    pub(crate) width: usize,
    pub(crate) count: usize,
    pub(crate) holder: Option<u16>,
}

// Reads a region file and asks each accepted record, while it is at hand, for the header that h spells as a cube. What was found is not looked for again.
pub(crate) fn ask_file(s: &[u8], h: &[u8]) -> Result<Asked, Refused>
    ensures { AskedIs s.now h.now result }
{
    let mut records = Records::begin(s)?;
    let mut holder = None;
    while let Some(difference) = records.read()? {
        if holder.is_none() && difference.holds(h) {
            holder = Some((records.count - 1) as u16);
        }
    }
    Ok(Asked {
        width: records.width,
        count: records.count,
        holder,
    })
}
