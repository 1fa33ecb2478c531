//! The numbers and the names of refusals, and the numbers with which the program ends.
use fs_edge::Status;
use fs_status::Code;

const STATUSES: [(Code, u16, u32, &str); 8] = [
    (Code::InvalidArgument, 400, 3, "INVALID_ARGUMENT"),
    (Code::FailedPrecondition, 400, 9, "FAILED_PRECONDITION"),
    (Code::NotFound, 404, 5, "NOT_FOUND"),
    (Code::AlreadyExists, 409, 6, "ALREADY_EXISTS"),
    (Code::Aborted, 409, 10, "ABORTED"),
    (Code::ResourceExhausted, 429, 8, "RESOURCE_EXHAUSTED"),
    (Code::Unimplemented, 501, 12, "UNIMPLEMENTED"),
    (Code::OutOfMemory, 507, 100, "OUT_OF_MEMORY"),
];

#[test]
fn each_status_has_its_numbers_and_its_name(rt: HostRuntime) {
    for (code, http, rpc, name) in &STATUSES {
        assert!(rt;
            code.http() == *http && code.rpc() == *rpc && code.status() == *name,
            "{name}"
        );
    }
}

#[test]
fn statuses_exit_as_documented(rt: HostRuntime) {
    let table = [
        (Status::Ok, 0),
        (Status::Usage, 2),
        (Status::Memory, 3),
        (Status::ReadFault, 4),
        (Status::WriteFault, 5),
        (Status::InputLimit, 6),
        (Status::DoorFault, 7),
    ];
    for (status, code) in &table {
        assert!(rt; status.exit_code() == *code, "{code}");
    }
}
