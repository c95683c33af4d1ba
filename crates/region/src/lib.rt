// Records and region files: read with every refusal in its order, asked, viewed and read on; and what writes a record. A record's layout is known here and
// nowhere above.
#![tactic(auto)]

mod asking;
mod bytes;
mod calls;
mod difference;
mod files;
mod frame;
mod front;
mod lent;
mod limits;
mod member;
mod offset;
mod reader;
mod record;
mod records;
mod steps;
mod views;
mod width;
mod writer;

pub use calls::{diff_member, region_member};
pub use difference::Difference;
pub use files::{File, Refused, check_file};
pub use front::{Front, front_at};
pub use lent::{one_difference, one_refusal, record_refusal, two_differences, two_refusal};
pub use limits::{MOST_CUTS, MOST_DIFFERENCES, TAKEN_CUTS, WIDTH_RECORD};
pub use reader::{Reader, Turn, begin_reading, first_step, step_on};
pub use steps::{Step, read_on};
pub use views::{Stretch, stretch_of, view, view_number};
pub use width::first_at;
pub use writer::{front_len, put_front, put_record, put_width, record_len};
