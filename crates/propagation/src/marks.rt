// Marks of events.
ghost use Rattle.std.specs.Prelude.{◌≡◌, ◌<◌, length, filter, not, false, get_or, slice_get};
ghost use Rattle.std.specs.List.{range_with_len};
ghost use Rattle.propagation.specs.Marks.{with_mark};

/// An event is marked where it was, or where something is so.
pub(crate) fn mark(marks: &mut Vec<bool>, event: u32, is: bool)
    requires { event < length marks.old.items }
    ensures { marks.new.items ≡ with_mark marks.old.items event is }
{
    let event = event as usize;
    marks[event] = marks[event] || is;
}

/// The first event that is marked.
pub(crate) fn first_marked(marks: &[bool]) -> Option<usize>
    ensures { result ≡ slice_get
        (filter (λ event. get_or marks.now event false) (range_with_len 0 (length marks.now))) 0 }
{
    for event in 0..marks.len() {
        if marks[event] {
            return Some(event);
        }
    }
    None
}

/// The first event that is not marked.
pub(crate) fn first_unmarked(marks: &[bool]) -> Option<usize>
    ensures { result ≡ slice_get
        (filter (λ event. not (get_or marks.now event false)) (range_with_len 0 (length marks.now))) 0 }
{
    for event in 0..marks.len() {
        if !marks[event] {
            return Some(event);
        }
    }
    None
}
