// The calls of the crate broker under the names and the calling convention that the packet broker's C host links with (include/broker.h).
#![tactic(auto)]

ghost use Rattle.std.specs.Prelude.{◌≡◌, length};
ghost use Rattle.format.specs.Told.{over};
ghost use Rattle.format.specs.Calls.{region_member, region_empty};

use answer::Answer;

// Whether the header is in the region.
#[unsafe(no_mangle)]
pub extern "C" fn permit_member(region: &[u8], header: &[u8]) -> Answer
    ensures { result ≡ (region_member region.now header.now).answer }
{
    broker::permit_member(region, header)
}

// Whether no header is in the region; where one is, it is written over the front of the buffer.
#[unsafe(no_mangle)]
pub extern "C" fn permit_empty(region: &[u8], allowance: u32, header: &mut [u8]) -> Answer
    ensures answer { result ≡ (region_empty region.now allowance (length header.old)).answer }
    ensures bytes { header.new ≡ over header.old (region_empty region.now allowance (length header.old)).bytes }
{
    broker::permit_empty(region, allowance, header)
}
