//! As many keys as may wait, and more.

use super::{bytes_of_code, call};
use bn_types::Status;
use std::alloc::{AllocError, Global};

/// Takes a key and shuts down.
const LISTEN: [u32; 4] = [
    0x00200893, // addi x17,x0,2
    0x00000073, // ecall
    0x00800893, // addi x17,x0,8
    0x00000073, // ecall
];

const END: &str =
    "end 263 shutdown a0ce1ccc2c44ba5da329412abf08efb5cc919d94d9491fe2dc25a6d948ca058e\n";

/// 257 keys, of which the guest takes one, and two more.
fn script_of(alloc: Global) -> Result<String, AllocError> {
    let mut script = String::new(alloc);
    for _key in 0..257 {
        script.push_str("key 41\n")?;
    }
    script.push_str("turn 0 2\nkey 42\nkey 43\n")?;
    Ok(script)
}

/// The last of the 257 is lost, and so is the last of the two.
fn trace_of(alloc: Global) -> Result<String, AllocError> {
    let mut trace = String::new(alloc);
    for event in 0..256 {
        let line = format!(in alloc; "key {event} 41\n")?;
        trace.push_str(&line)?;
    }
    trace.push_str("nokey 256 41\nkey 259 42\nnokey 260 43\n")?;
    trace.push_str(END)?;
    Ok(trace)
}

#[test]
fn as_many_keys_wait_as_there_is_room_for(rt: HostRuntime) {
    let alloc = rt.alloc();
    let image = bytes_of_code(alloc, &LISTEN).expect(&rt, "memory");
    let script = script_of(alloc).expect(&rt, "memory");
    let trace = trace_of(alloc).expect(&rt, "memory");
    let words = ["run", "a.img", "--ram", "16", "--script", "s"];
    let files: [(&str, &[u8]); 2] = [("a.img", &image), ("s", script.as_bytes())];
    let status = call(&rt, alloc, &words, &files, &[&trace]);
    assert_eq!(rt; status, Status::Ended);
}
