use crate::drive;
use std::test::Fail;
use xrf_base::Site;

#[test]
fn a_run_of_the_most_turns_comes_to_what_it_did(rt: HostRuntime) -> Result<(), Fail> {
    let world = drive(rt.alloc(), 7, 8192)?;
    assert_eq!(rt; world.journal().len(), 8192);
    assert_eq!(rt; world.now(), 4333);
    assert_eq!(rt; world.control().last(), 27);
    let counts = world.log_counts();
    assert_eq!(rt; counts.committed, 145);
    assert_eq!(rt; counts.flight, 1);
    Ok(())
}

#[test]
fn a_run_of_no_turns_is_its_scenario(rt: HostRuntime) -> Result<(), Fail> {
    let world = drive(rt.alloc(), 7, 0)?;
    assert!(rt; world.journal().is_empty());
    assert!(rt; !world.has_job(Site::A));
    Ok(())
}
