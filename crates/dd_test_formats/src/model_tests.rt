use dd_model::{Allowed, Code, Job, Prefix, Request};
use std::alloc::Global;
use std::process::Abort;

/// A number, and whether the set of 3 and of 35 to 216 has it.
const NUMBERS: [(u32, bool); 6] = [
    (0, false),
    (3, true),
    (34, false),
    (35, true),
    (216, true),
    (217, false),
];

#[test]
fn sets(rt: HostRuntime) {
    let mut set = Allowed::least(35);
    set.add(3);
    for (m, is_in) in &NUMBERS {
        assert_eq!(rt; set.has(*m), *is_in);
    }
    assert!(rt; set.is_some());
    assert!(rt; !Allowed::none().is_some());
}

#[test]
fn requests(rt: HostRuntime) {
    let three = Allowed::least(3);
    for (chambers, tiles, faces, is_valid) in [
        (1, 0, three, true),
        (36, 36, three, true),
        (0, 0, three, false),
        (37, 0, three, false),
        (2, 37, three, false),
        (2, 0, Allowed::none(), false),
    ] {
        let request = Request {
            chambers,
            tiles,
            vertices: 0,
            faces,
            degrees: three,
            minimal: false,
        };
        assert_eq!(rt; request.is_valid(), is_valid);
    }
}

fn job<R: Abort>(rt: &R, alloc: Global) -> Job {
    let prefix = Prefix::from_slice(alloc, &[1, 1, 2]).expect(rt, "a prefix");
    Job { size: 2, prefix }
}

fn copied<R: Abort>(rt: &R, alloc: Global) -> Job {
    let job = job(rt, alloc);
    job.try_copy().expect(rt, "a copy")
}

fn code<R: Abort>(rt: &R, alloc: Global) -> Code {
    Code::from_vec(Vec::from_slice(alloc, &[1, 1, 1, 4, 4]).expect(rt, "a list"))
}

#[test]
fn jobs(rt: HostRuntime) {
    let copy = copied(&rt, rt.alloc());
    assert_eq!(rt; copy.size, 2);
    assert_eq!(rt; copy.prefix.as_slice(), [1, 1, 2].as_slice());
}

#[test]
fn codes(rt: HostRuntime) {
    let code = code(&rt, rt.alloc());
    assert_eq!(rt; code.as_slice(), [1, 1, 1, 4, 4].as_slice());
}
