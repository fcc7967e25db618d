//! Laws of recorded packets.
ghost use Rattle.std.specs.Prelude.{◌≡◌, ◌≤◌, ◌+◌, ℕ, List, [], ◌∷◌, ◌++◌, length, ⊤};
ghost use Rattle.zy_read.specs.Bytes.{AreBytes};
ghost use Rattle.zy_pcap.specs.declared.pcap_fault.PcapFault.TheVariants as Faults;
ghost use Rattle.zy_pcap.specs.Packet.{Packet};
ghost use Rattle.format_laws.specs.Copies.{stream_of_packets, IsCovered, Agree};
ghost use Rattle.zy_pcap.specs.Made.{pcap_capture};
ghost use Rattle.zy_read.specs.Runs.{IsWhole, IsCut, HasFault, IsOutcome};
ghost use Rattle.zy_pcap.specs.declared.pcap_fault.PcapFault.{PcapFault};
ghost use Rattle.zy_pcap.specs.Packets.{FileState, packet_fields, found, packets};
ghost use Rattle.zy_pcap.specs.Packets.FoundPackets.{Packets, Bad};
ghost use Rattle.zy_pcap.specs.Steps.{file_limit};
ghost use Rattle.zy_pcap.specs.Sizes.{payload_bytes, file_header, record_bytes};
ghost use Rattle.format_laws.specs.WorkedPackets.{worked_file, worked_packets, worked_capture};

/// The example file has its packets, and these make its capture.
pub fn the_worked_file_makes_its_capture()
    ensures file { packets 1766 worked_file ≡ Packets worked_packets }
    ensures capture { pcap_capture worked_packets ≡ worked_capture }
{}

/// The empty text is a file that ended within its header, and the magic of another format is a
/// fault.
pub fn the_worked_faults_are_told()
    ensures empty { packets 1766 [] ≡ Bad (Faults.PcapTruncated 0) }
    ensures other { packets 1766 (10 ∷ 13 ∷ 13 ∷ 10 ∷ []) ≡ Bad (Faults.Magic 0) }
{}

/// Each file is whole fields up to the end of its header or of a record, or is cut, or has a fault, and
/// its packets are those of the fields, or it is truncated, or has the fault.
pub fn a_file_is_what_its_fields_say()
    ensures only { (port : ℕ) (bytes : List ℕ)
        → IsOutcome (packet_fields port) found Bad bytes (packets port bytes) }
    ensures whole { (port : ℕ) (bytes : List ℕ) (s : FileState) (given : List ⊤)
        → IsWhole (packet_fields port) bytes s given → packets port bytes ≡ Packets s.packets }
    ensures cut { (port : ℕ) (bytes : List ℕ) → IsCut (packet_fields port) bytes
        → packets port bytes ≡ Bad (Faults.PcapTruncated (length bytes)) }
    ensures fault { (port : ℕ) (bytes : List ℕ) (s : FileState) (fault : PcapFault)
        → HasFault (packet_fields port) bytes s fault → packets port bytes ≡ Bad fault }
{}

/// A packet changes no stream if each of its bytes has an offset at which an earlier packet of the
/// session has a byte; so a retransmission changes none.
pub fn a_copy_changes_no_stream()
    ensures covered { (first packet : Packet) (before after : List Packet)
        → IsCovered first before packet
        → stream_of_packets first (before ++ packet ∷ after)
        ≡ stream_of_packets first (before ++ after) }
    ensures copy { (first packet : Packet) (before between after : List Packet)
        → stream_of_packets first ((before ++ packet ∷ between) ++ packet ∷ after)
        ≡ stream_of_packets first ((before ++ packet ∷ between) ++ after) }
{}

/// Two packets of a session may be exchanged, if they have the same byte at each offset at which
/// both have one: the order of packets matters only for which copy is the first one.
pub fn the_order_of_packets_changes_no_stream()
    ensures order { (first one other : Packet) (before after : List Packet)
        → Agree first one other
        → stream_of_packets first (before ++ one ∷ other ∷ after)
        ≡ stream_of_packets first (before ++ other ∷ one ∷ after) }
{}

/// A stream is not longer than the payloads of its packets.
pub fn a_stream_is_no_longer_than_its_payloads()
    ensures value { (first : Packet) (packets : List Packet)
        → length (stream_of_packets first packets) ≤ payload_bytes packets }
{}

/// A file has at most 4,294,967,295 bytes, among them its header and, for each packet, the headers of
/// its record, its frame, IP and TCP, and its payload.
pub fn a_file_holds_its_packets()
    ensures limit { (port : ℕ) (bytes : List ℕ) (given : List Packet)
        → packets port bytes ≡ Packets given → length bytes ≤ file_limit }
    ensures holds { (port : ℕ) (bytes : List ℕ) (given : List Packet)
        → packets port bytes ≡ Packets given → file_header + record_bytes given ≤ length bytes }
{}

/// The capture of a file's packets is not longer than the file. Each number of it is a byte, if each
/// number of the file is one.
pub fn a_capture_is_no_longer_than_its_file()
    ensures within { (port : ℕ) (bytes : List ℕ) (given : List Packet)
        → packets port bytes ≡ Packets given → length (pcap_capture given) ≤ length bytes }
    ensures bytes { (port : ℕ) (bytes : List ℕ) (given : List Packet)
        → packets port bytes ≡ Packets given → AreBytes bytes → AreBytes (pcap_capture given) }
{}
