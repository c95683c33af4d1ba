// What the packet broker's C host asks of a region file: membership and emptiness, on plain numbers and byte buffers. The crate broker_c exports them.
#![tactic(auto)]

ghost use Rattle.std.specs.Prelude.{◌≡◌, length};
ghost use Rattle.format.specs.Told.{over};
ghost use Rattle.format.specs.Calls.{region_member, region_empty};

use answer::Answer;

// Whether the header is in the region.
pub fn permit_member(region: &[u8], header: &[u8]) -> Answer
    ensures { result ≡ (region_member region.now header.now).answer }
{
    region::region_member(region, header)
}

// Whether no header is in the region; where one is, it is written over the front of the buffer.
pub fn permit_empty(region: &[u8], allowance: u32, header: &mut [u8]) -> Answer
    ensures answer { result ≡ (region_empty region.now allowance (length header.old)).answer }
    ensures bytes { header.new ≡ over header.old (region_empty region.now allowance (length header.old)).bytes }
{
    walk::region_empty(region, allowance, header)
}
