// What is written to the output.
ghost use Rattle.std.specs.Prelude.{◌≡◌, length, replicate, is_some};
ghost use Rattle.std.specs.Option.{unwrap_or};
ghost use Rattle.lists.specs.Bytes.{overwrite};
ghost use Rattle.segment.specs.Write.{syn_ack_bytes};
ghost use Rattle.protocol.specs.View.{own_address};
ghost use Rattle.protocol.specs.Step.{syn_ack_from};

use endpoint::address::size_of;
use protocol::slots::Slot;
use protocol::state::LocalEndpoint;
use segment::options::Coding;
use segment::write::{SynAck, write_syn_ack};
use table::slot::accepted_with;

// Writes the SYN-ACK from a connection's slot, with a fresh cookie in a coding if there is one, and returns how many bytes that took.
pub fn write_from(
    out: &mut [u8],
    local: LocalEndpoint,
    mss: u16,
    dst: &[u8],
    s: Slot,
    fresh: Option<[u8; 8]>,
    coding: Coding,
) -> usize
    ensures value { result ≡ length (syn_ack_bytes (own_address local) dst.now (syn_ack_from local mss s (is_some fresh) coding) (unwrap_or fresh (replicate 8 0)) (length out.old)) }
    ensures out_after { out.new ≡ overwrite (syn_ack_bytes (own_address local) dst.now (syn_ack_from local mss s (is_some fresh) coding) (unwrap_or fresh (replicate 8 0)) (length out.old)) out.old }
{
    let n = size_of(local.family);
    let a = SynAck {
        source: local.port,
        dest: s.port,
        iss: s.iss,
        irs: s.irs,
        accepted: accepted_with(s.status),
        mss,
        fresh: fresh.is_some(),
        coding,
    };
    write_syn_ack(out, &local.own[..n], dst, a, fresh.unwrap_or([0u8; 8]))
}
