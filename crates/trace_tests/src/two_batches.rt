// The trace of the two batches, as a file.

// Take (2, 0), cutoff, cut, infer, cut, cut, drop.
pub(crate) const TRACE: &[u8] =
    b"T\x01\0\x02\0\0\0KC\x02\x02\0\x01\0\0\0\x02\0\x01\0\0\0I\0\x01\x01\x03\0C\x02\x02\0\x01\0\x04\0\x01\0\x02\0\0\0C\x02\x01\0\x01\0\x05\0\x01\0\x01\0\0\0D\x06\0E";
