//! Tables of steps, made one after another. What a step tells stands behind its arrow, and where there is none it tells nothing.
use crate::forms::{all_spelled, cut};
use crate::told::Told;
use std::alloc::Global;
use std::process::Abort;

/// What steps are made on.
pub(crate) trait Answers {
    fn answer(&mut self, rt: &impl Abort, alloc: Global, step: &str) -> Told;
}

// What is wanted. What is sent stands in short.
fn wanted(rt: &impl Abort, alloc: Global, step: &str, want: &str) -> String {
    match step {
        "sent" => all_spelled(rt, alloc, want),
        _ => String::from_str(alloc, want).expect(rt, "memory"),
    }
}

fn line_holds<A: Answers>(rt: &impl Abort, alloc: Global, on: &mut A, line: &str) {
    for one in line.split(" | ") {
        let (step, want) = cut(one, " =>");
        let want = wanted(rt, alloc, step, want.trim());
        let told = on.answer(rt, alloc, step).expect(rt, "memory");
        let (told, want) = (told.as_str().trim(), want.as_str().trim());
        assert!(rt; told == want, "{one}\nin {line}\ntold {told}\nwant {want}");
    }
}

/// Asserts that each step of each line tells what it says.
pub(crate) fn holds<A: Answers>(rt: &impl Abort, alloc: Global, on: &mut A, table: &str) {
    for line in table.lines() {
        line_holds(rt, alloc, on, line);
    }
}
