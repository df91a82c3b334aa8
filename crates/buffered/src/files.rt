// The file of tables.
use crate::input::read_full;
use std::fs::File;

// Reads the file; whether it is as long as the buffer: a `bool`, since what failed is told where it is read.
fn read_whole(rt: &HostRuntime, file: &mut File, tables: &mut [u8]) -> bool {
    let what = b"cannot read tables.bin";
    if read_full(rt, file, tables, what).bytes < tables.len() {
        return false;
    }
    // A longer file has a byte more.
    let mut more = [0u8; 1];
    let rest = read_full(rt, file, &mut more, what);
    (rest.bytes == 0) & rest.failed.is_none()
}

// Reads `tables.bin` of the current folder; whether it is there and as long as the buffer.
pub fn read_tables(rt: &HostRuntime, tables: &mut [u8]) -> bool {
    match File::open(rt, "tables.bin") {
        Ok(mut file) => read_whole(rt, &mut file, tables),
        Err(_) => false,
    }
}
