//! What a disk over a file does to the file.
use rel_disk::{DeviceFault, Disk};
use rel_host::FileDisk;
use rel_store::Store;
use std::alloc::Global;
use text_cases::Answer;

/// What a disk is opened for.
#[derive(Clone, Copy)]
pub(crate) enum Use {
    /// For nothing more.
    Open,
    /// To show its bytes.
    Show,
    /// For three writes and a cut.
    Edit,
    /// To make a store with two records.
    MakeStore,
    /// To show the records of a store.
    ShowRecords,
}

/// Appends what comes of the use of a disk over a file, or why it doesn't open.
pub(crate) fn push_disk(host: &HostRuntime, to: Use, name: &str, answer: &mut Answer) {
    match FileDisk::open(host, host.alloc(), name) {
        Ok(disk) => push_use(host.alloc(), disk, to, answer),
        Err(error) => answer.push_debug(&error),
    }
}

/// Appends whether a file opens while it is open already, and again when it is closed.
pub(crate) fn push_openings(host: &HostRuntime, name: &str, answer: &mut Answer) {
    let first = FileDisk::open(host, host.alloc(), name);
    push_disk(host, Use::Open, name, answer);
    drop(first);
    answer.push(" while it is open, then ");
    push_disk(host, Use::Open, name, answer);
}

/// Appends the bytes of the disk over a file before and after an edit.
pub(crate) fn push_edited(host: &HostRuntime, name: &str, answer: &mut Answer) {
    push_disk(host, Use::Show, name, answer);
    push_disk(host, Use::Edit, name, answer);
    push_disk(host, Use::Show, name, answer);
}

fn push_use<D: Disk + Drop>(alloc: Global, disk: D, to: Use, answer: &mut Answer) {
    let mut disk = disk;
    match to {
        Use::Open => answer.push("opened"),
        Use::Show => {
            answer.push("[");
            push_all(alloc, &mut disk, answer);
            answer.push("]");
        }
        Use::Edit => answer.push(if edit(&mut disk) {
            " edited "
        } else {
            " not edited "
        }),
        Use::MakeStore => push_made(alloc, disk, answer),
        Use::ShowRecords => push_store(alloc, disk, answer),
    }
}

/// Writes at a place within the disk.
fn put<D: Disk>(disk: &mut D, at: u64, bytes: &[u8]) -> Result<(), DeviceFault> {
    match disk.len() {
        Ok(len) if at <= len => disk.write_at(at, bytes),
        _ => Err(DeviceFault),
    }
}

/// Cuts to a length within the disk.
pub(crate) fn shorten<D: Disk>(disk: &mut D, len: u64) -> Result<(), DeviceFault> {
    match disk.len() {
        Ok(old) if len <= old => disk.cut(len),
        _ => Err(DeviceFault),
    }
}

/// Appends all bytes that a read gives.
pub(crate) fn push_all<D: Disk>(alloc: Global, disk: &mut D, answer: &mut Answer) {
    let len = disk.len().unwrap_or(0);
    match vec![in alloc; 0; len as usize] {
        Ok(mut bytes) => {
            if disk.read(0, &mut bytes).is_ok() {
                answer.push_bytes(&bytes);
            } else {
                answer.push("not read");
            }
        }
        Err(_) => answer.note_no_memory(),
    }
}

// Whether three writes and a cut are done and synced.
fn edit<D: Disk>(disk: &mut D) -> bool {
    let done = [
        put(disk, 0, b"hello, disk"),
        put(disk, 3, b"XY"),
        shorten(disk, 9),
        put(disk, 9, b"k!"),
        disk.sync(),
    ];
    done == [Ok(()); 5]
}

fn push_made<D: Disk + Drop>(alloc: Global, disk: D, answer: &mut Answer) {
    let made = match Store::create(alloc, disk, b"[].", b"14.2 A\n") {
        Ok(mut store) => store.append(alloc, b"a.").is_ok(),
        Err(_) => false,
    };
    answer.push(if made { "made" } else { "not made" });
}

fn push_store<D: Disk + Drop>(alloc: Global, disk: D, answer: &mut Answer) {
    match Store::open_disk(alloc, disk) {
        Ok(store) => push_records(store.records(), answer),
        Err(_) => answer.push("no store"),
    }
}

fn push_records(records: &[Vec<u8>], answer: &mut Answer) {
    for record in records {
        answer.push_bytes(record);
        answer.push(" ");
    }
}
