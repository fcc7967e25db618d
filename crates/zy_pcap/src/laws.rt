//! Laws over the definitions of recorded packets.
ghost use Rattle.std.specs.Prelude.{◌≡◌, ◌≤◌, ℕ, List, length};
ghost use Rattle.zy_capture.specs.Capture.{capture_limit};
ghost use Rattle.zy_read.specs.Bytes.{AreBytes};
ghost use Rattle.zy_capture.specs.Verdict.{verdict};
ghost use Rattle.zy_capture.specs.Verdict.Verdict.{Good};
ghost use Rattle.zy_pcap.specs.Flow.{flows_of, streams_of_flows};
ghost use Rattle.zy_pcap.specs.Packet.{Packet};
ghost use Rattle.zy_pcap.specs.Made.{pcap_capture, pcap_verdict, records_from};
ghost use Rattle.zy_pcap.specs.Packets.{packets};
ghost use Rattle.zy_pcap.specs.Packets.FoundPackets.{Packets};

use zy_capture::a_capture_is_good_exactly_where_it_is_a_spelling;

/// The capture of recorded packets is good, if it has bytes only and is not too long: its count is
/// that of the connections, at most 4,096, and its records are those of their streams.
pub fn the_capture_of_packets_is_good()
    ensures good { (packets : List Packet) → AreBytes (pcap_capture packets)
        → length (pcap_capture packets) ≤ capture_limit
        → verdict (pcap_capture packets) ≡ Good 2 (length (streams_of_flows (flows_of packets)))
        (records_from 0 (streams_of_flows (flows_of packets))) }
{
    a_capture_is_good_exactly_where_it_is_a_spelling();
}

/// The capture of a file's packets is good: its count is that of the connections, and its records are
/// those of their streams.
pub fn the_capture_of_a_file_is_good()
    ensures good { (port : ℕ) (bytes : List ℕ) (given : List Packet)
        → packets port bytes ≡ Packets given → AreBytes bytes
        → verdict (pcap_capture given) ≡ pcap_verdict given }
{
    the_capture_of_packets_is_good();
}
