// The words of the command line.
use super::running::words;
use crate::serving::words_of;
use std::io::{Error, ErrorKind};
use std::test::Fail;

#[test]
fn words_behind_the_name(rt: HostRuntime) -> Result<(), Fail> {
    let args = words(rt.alloc(), &["angle_run", "gen", "1"])?;
    let rest = words_of(rt.alloc(), Ok(args.into_iter()))?;
    assert_eq!(rt; rest.len(), 2);
    assert!(rt; rest[0].as_str() == "gen" && rest[1].as_str() == "1");
    let none = words_of(rt.alloc(), Err(Error::from(ErrorKind::InvalidData)))?;
    assert!(rt; none.is_empty());
    assert!(rt; words_of(rt.alloc(), Err(Error::from(ErrorKind::OutOfMemory))).is_err());
    Ok(())
}
