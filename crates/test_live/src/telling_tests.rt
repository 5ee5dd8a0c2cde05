//! What a space tells of itself, the texts of faults, and what is said about histories that are another space's.
use live_script::ScriptFault;
use live_space::fault::LiveFault;
use machine_model::SetupFault;
use std::test::Fail;
use test_lanes::rows::shape_of;
use test_lanes::scripts::astray_beside_unused;

#[test]
fn a_space_tells_of_itself(rt: HostRuntime) -> Result<(), Fail> {
    assert!(rt; shape_of(rt.alloc(), "vm 2 3 5") == Some((2, 3, 2)));
    Ok(())
}

#[test]
fn faults_have_texts(rt: HostRuntime) -> Result<(), Fail> {
    let live = ScriptFault::Live(LiveFault::Notes);
    let setup = ScriptFault::Setup(SetupFault::NoMemory);
    let told = format!(in rt.alloc(); "{live}, {setup}, {}", ScriptFault::NoMemory)?;
    assert_eq!(rt; told.as_str(), "live V2, setup S6, out of memory");
    Ok(())
}

#[test]
fn histories_of_another_space_are_refused(rt: HostRuntime) -> Result<(), Fail> {
    let mapped = "vm 1 4\nc0! mmap 0x10000 4096 rw- pfa\n";
    assert!(rt; astray_beside_unused(&rt, rt.alloc(), mapped)? == Some(1));
    let nothing = "vm 1 4\nc0! load 0x10000\n";
    assert!(rt; astray_beside_unused(&rt, rt.alloc(), nothing)? == None);
    Ok(())
}
