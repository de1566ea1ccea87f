//! What each reader of a list of releases gives.
use crate::bundles::is_first;
use crate::lists::{push_current, push_length, push_status};
use rel_list::ReleaseList;
use text_cases::Answer;

/// What each reader gives at the end, and whether the release A is the permanent one and runs.
pub(crate) fn push_at_end(list: &ReleaseList, answer: &mut Answer) {
    push_readers(list, answer);
    answer.push("A is permanent and runs: ");
    answer.push_shown(&(is_first(list.permanent()) && is_first(list.running())));
}

/// What each reader gives: the releases with their statuses, and the rest. No list here has a release D.
pub(crate) fn push_readers(list: &ReleaseList, answer: &mut Answer) {
    for listed in list.releases() {
        answer.push_after(listed.release.vsn.as_str(), " ");
        answer.push_after(listed.status.as_str(), ", ");
    }
    push_current(list, answer);
    push_status(list, "A", answer);
    push_status(list, "D", answer);
    push_length(list, answer);
    answer.push("empty ");
    answer.push_shown(&list.is_empty());
    answer.push("; ");
}
