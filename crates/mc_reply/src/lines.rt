//! The lines of answers, each with the bytes that end it.

pub(crate) const LINE_END: &[u8] = b"\r\n";

pub(crate) const STORED: &[u8] = b"STORED\r\n";

pub(crate) const NOT_STORED: &[u8] = b"NOT_STORED\r\n";

pub(crate) const EXISTS: &[u8] = b"EXISTS\r\n";

pub(crate) const NOT_FOUND: &[u8] = b"NOT_FOUND\r\n";

pub(crate) const DELETED: &[u8] = b"DELETED\r\n";

pub(crate) const NOT_NUMBER: &[u8] =
    b"CLIENT_ERROR cannot increment or decrement non-numeric value\r\n";

pub(crate) const TOO_LARGE: &[u8] = b"SERVER_ERROR object too large for cache\r\n";

pub(crate) const VERSION: &[u8] = b"VERSION zygos-1.0\r\n";

pub(crate) const OK: &[u8] = b"OK\r\n";

pub(crate) const END: &[u8] = b"END\r\n";

pub(crate) const NOOP: &[u8] = b"MN\r\n";

pub(crate) const MISS: &[u8] = b"EN\r\n";

pub(crate) const UNKNOWN: &[u8] = b"ERROR\r\n";

pub(crate) const BAD_LINE: &[u8] = b"CLIENT_ERROR bad command line format\r\n";

pub(crate) const BAD_DELTA: &[u8] = b"CLIENT_ERROR invalid numeric delta argument\r\n";

pub(crate) const LONG_LINE: &[u8] = b"CLIENT_ERROR line too long\r\n";

pub(crate) const BAD_CHUNK: &[u8] = b"CLIENT_ERROR bad data chunk\r\n";
