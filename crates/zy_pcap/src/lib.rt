//! Recorded packets: the streams of their flows as a capture.
#![tactic(auto)]

mod due;
mod fed;
mod flows;
mod frame;
mod held;
mod judged;
mod kept_flow;
mod kept_flows;
mod kept_session;
mod kept_stream;
mod laws;
mod pcap_fault;
mod pcap_state;
mod reader;
mod records;
mod slot;
mod weaving;
mod writing;

pub use fed::Fed;
pub use flows::Flows;
pub use laws::{the_capture_of_a_file_is_good, the_capture_of_packets_is_good};
pub use pcap_fault::{PcapFault, PcapFeed};
pub use reader::PcapReader;
pub use writing::write_flows;
