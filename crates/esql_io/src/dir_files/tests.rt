use super::*;
use std::test::Fail;

#[test]
fn a_file_of_the_folder_is_read_to_its_end(rt: HostRuntime) -> Result<(), Fail> {
    fs::write(&rt, "dir_files_test.ndjson", b"12345".as_slice())?;
    let mut files = DirFiles::new(&rt);
    let mut piece = [0; 4];
    assert_eq!(rt; files.read(&mut piece), Ok(0));
    assert_eq!(rt; files.open("dir_files_test.ndjson"), Ok(true));
    assert_eq!(rt; files.read(&mut piece), Ok(4));
    assert_eq!(rt; piece, *b"1234");
    assert_eq!(rt; files.read(&mut piece), Ok(1));
    assert_eq!(rt; piece[0], b'5');
    assert_eq!(rt; files.read(&mut piece), Ok(0));
    assert_eq!(rt; files.faults, 0);
    fs::remove_file(&rt, "dir_files_test.ndjson")?;
    Ok(())
}

#[test]
fn a_missing_file_is_no_fault(rt: HostRuntime) -> Result<(), Fail> {
    let mut files = DirFiles::new(&rt);
    assert_eq!(rt; files.open("dir_files_test.missing"), Ok(false));
    assert_eq!(rt; files.faults, 0);
    assert_eq!(rt; files.read(&mut [0; 4]), Ok(0));
    Ok(())
}

#[test]
fn a_folder_in_place_of_a_file_is_a_fault(rt: HostRuntime) -> Result<(), Fail> {
    let mut files = DirFiles::new(&rt);
    assert_eq!(rt; files.open("."), Ok(true));
    assert_eq!(rt; files.read(&mut [0; 4]), Err(Failed));
    assert_eq!(rt; files.faults, 1);
    assert_eq!(rt; files.read(&mut [0; 4]), Ok(0));
    assert_eq!(rt; files.faults, 1);
    assert_eq!(rt; files.open("\0"), Err(Failed));
    assert_eq!(rt; files.faults, 2);
    Ok(())
}
