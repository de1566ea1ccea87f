//! What the host gives: arguments, paths, and files in the folder in which the program runs.
use crate::disks::{Use, push_disk, push_edited, push_openings};
use crate::faults::push_faults;
use crate::folders::{push_contents, push_made, push_read, push_read_below};
use crate::options::push_options;
use crate::watched::push_watched;
use rel_host::is_below;
use text_cases::Answer;

/// The answer in one of these modes. NAME is a file's, in the folder in which the program runs.
///
/// `options WORDS`: the store and the root that the arguments give. `below PATH`: whether the path leads below its folder.
///
/// `folder NAME`, `link NAME PATH`, `file NAME TEXT` and `zeros NAME COUNT` make a folder, a symbolic link, a file, and a file of
/// so many zeros, of which the host need store none. `contents NAME`: what stands in the file. `read ROOT PATH`: what a read below the folder ROOT gives, by its
/// length from eight bytes on; `read_nowhere PATH`: where no folder is given.
///
/// The other modes are those of [`push_of_disks`].
pub(crate) fn push_host(host: &HostRuntime, mode: &str, words: &str, answer: &mut Answer) {
    match mode {
        "options" => push_options(host.alloc(), words, answer),
        "below" => answer.push(if is_below(words) { "yes" } else { "no" }),
        "contents" => push_contents(host, words, answer),
        "read" => push_read_below(host, words, answer),
        "read_nowhere" => push_read(host, None, words, answer),
        "folder" | "link" | "file" | "zeros" => push_made(host, mode, words, answer),
        _ => push_of_disks(host, mode, words, answer),
    }
}

// `open NAME`: whether it opens as a disk. `open_twice NAME`: whether it does while it is open, and then once it is closed. `edit
// NAME`: the bytes of the disk, those after three writes, a cut and an opening more, and those in the file. `store NAME`
// makes a store of two records, and `records NAME` shows them. `faults HOW NAME STEPS`: what the steps answer of a disk over the
// file, which is opened HOW: `reads` or `writes` or `fills`, for reads, for both, or for writes alone. `watched CALL NAME STEPS`:
// which calls of the file and of its folder an opening and the steps make, where the call of this number fails.
fn push_of_disks(host: &HostRuntime, mode: &str, name: &str, answer: &mut Answer) {
    match mode {
        "open" => push_disk(host, Use::Open, name, answer),
        "open_twice" => push_openings(host, name, answer),
        "edit" => push_edited(host, name, answer),
        "store" => push_disk(host, Use::MakeStore, name, answer),
        "records" => push_disk(host, Use::ShowRecords, name, answer),
        "faults" => push_faults(host, name, answer),
        "watched" => push_watched(host, name, answer),
        _ => answer.push("no such mode"),
    }
}
