//! Why a capture is read no further.

use zy_capture::CaptureFault;

/// Why a capture is read no further.
pub type Stop = zy_read::Stop<CaptureFault>;
