// Files as bytes.
use std::io::{ErrorKind, Read};
use std::rt::Files;
use std::{fs, io};

// A missing file counts as empty, and one that is too long is cut one byte past the longest that is allowed.
pub fn read_file<R: Alloc + Files>(rt: &R, path: &str) -> io::Result<Vec<u8, R::A>> {
    let mut bytes = Vec::new(rt.alloc());
    match fs::open(rt, path) {
        Ok(file) => {
            file.take(65_537).read_to_end(&mut bytes)?;
            Ok(bytes)
        }
        Err(error) => match error.kind() {
            ErrorKind::NotFound => Ok(bytes),
            _ => Err(error),
        },
    }
}
