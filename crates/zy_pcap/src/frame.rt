//! What a frame is, by its headers.
ghost use Rattle.std.specs.Prelude.{◌≡◌, ◌+◌, ◌<◌, ◌≤◌, length, slice_index, IsTrue};
ghost use Rattle.zy_pcap.specs.Frame as frames;
ghost use Rattle.zy_pcap.specs.Packet.{IsCarried};

use crate::judged::{Judged, Segment};
use crate::pcap_fault::PcapFault;

const IP: usize = 14;

// Judges the frame of a record at this place, for packets to this port.
#[tactic(auto, unfolding(crate::specs::Frame::judge))]
pub(crate) fn judge(port: u16, at: u64, frame: &[u8]) -> Judged
    ensures value { result ≡ frames.judge port at frame.now }
    ensures held { IsCarried frame.now result }
{
    if frame.len() < IP {
        return Judged::Refused(PcapFault::Short { at });
    }
    match short_at(frame, 12) {
        0x86dd => judge_ipv6(port, at, frame),
        0x8100 => Judged::Refused(PcapFault::Vlan { at }),
        0x0800 => judge_ip(port, at, frame),
        _ => Judged::Passed,
    }
}

// Returns the number of two bytes at a place.
fn short_at(frame: &[u8], at: usize) -> u16
    requires within { at + 1 < length frame.now }
    ensures value { result ≡ frames.short_at frame.now at }
{
    u16::from_be_bytes([frame[at], frame[at + 1]])
}

// Returns the number of four bytes at a place.
fn number_at(frame: &[u8], at: usize) -> u32
    requires within { at + 3 < length frame.now }
    ensures value { result ≡ frames.number_at frame.now at }
{
    u32::from_be_bytes([frame[at], frame[at + 1], frame[at + 2], frame[at + 3]])
}

// Judges an IPv6 packet.
fn judge_ipv6(port: u16, at: u64, frame: &[u8]) -> Judged
    ensures value { result ≡ frames.judge_ipv6 port at frame.now }
    ensures held { IsCarried frame.now result }
{
    if frame.len() >= 58 && frame[20] == 6 && short_at(frame, 56) == port {
        Judged::Refused(PcapFault::Ipv6 { at })
    } else {
        Judged::Passed
    }
}

// Judges an IP packet.
fn judge_ip(port: u16, at: u64, frame: &[u8]) -> Judged
    ensures value { result ≡ frames.judge_ip port at frame.now }
    ensures held { IsCarried frame.now result }
{
    if frame.len() < IP + 20 || frame[IP] / 16 != 4 || frame[IP] % 16 < 5 {
        return Judged::Refused(PcapFault::Short { at });
    }
    if frame[IP + 9] != 6 {
        return Judged::Passed;
    }
    if short_at(frame, IP + 6) % 16_384 != 0 {
        return Judged::Refused(PcapFault::Fragment { at });
    }
    judge_tcp(port, at, frame)
}

// Judges an IP packet that has TCP and is no fragment.
fn judge_tcp(port: u16, at: u64, frame: &[u8]) -> Judged
    requires header { frames.ip + 20 ≤ length frame.now }
    ensures value { result ≡ frames.judge_tcp port at frame.now }
    ensures held { IsCarried frame.now result }
{
    let size = (frame[IP] % 16) as usize * 4;
    if (short_at(frame, IP + 2) as usize) < size + 20 || frame.len() < IP + size + 20 {
        return Judged::Refused(PcapFault::Short { at });
    }
    if short_at(frame, IP + size + 2) != port {
        return Judged::Passed;
    }
    judge_payload(at, frame)
}

// Judges a packet to the port.
fn judge_payload(at: u64, frame: &[u8]) -> Judged
    requires header { frames.tcp frame.now + 20 ≤ length frame.now }
    ensures value { result ≡ frames.judge_payload at frame.now }
    ensures held { IsCarried frame.now result }
{
    let total = short_at(frame, IP + 2) as usize;
    let before = (frame[IP] % 16) as usize * 4;
    let own = (frame[IP + before + 12] / 16) as usize * 4;
    if own < 20 || total < before + own {
        return Judged::Refused(PcapFault::Short { at });
    }
    let size = total - (before + own);
    let is_syn = frame[IP + before + 13] / 2 % 2 == 1;
    if size == 0 && !is_syn {
        return Judged::Passed;
    }
    if size > 0 && frame.len() < IP + total {
        return Judged::Refused(PcapFault::Missing { at });
    }
    Judged::Taken(Segment {
        flow: flow_at(frame, IP + before),
        sequence: number_at(frame, IP + before + 4),
        is_syn,
        begin: if size == 0 { 0 } else { IP + before + own },
        size,
    })
}

// Returns the addresses and ports of a packet whose TCP header begins at a place.
fn flow_at(frame: &[u8], tcp: usize) -> [u8; 12]
    requires place { tcp ≡ frames.tcp frame.now }
    requires header { tcp + 20 ≤ length frame.now }
    ensures value { result ≡ frames.flow_at frame.now }
{
    let mut flow = [0; 12];
    flow[..8].copy_from_slice(&frame[26..34]);
    flow[8..].copy_from_slice(&frame[tcp..tcp + 4]);
    flow
}
