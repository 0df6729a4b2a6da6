use super::{Kept, has_record, keep};
use crate::{FileDisk, Journal};
use std::fs;
use std::test::Fail;

#[test]
fn a_journal_in_a_file_is_opened_again(rt: HostRuntime) -> Result<(), Fail> {
    let alloc = rt.alloc();
    let _ = fs::remove_dir_all(&rt, "journal_folder");
    fs::create_dir(&rt, "journal_folder")?;
    let disk = FileDisk::open(&rt, "journal_folder/journal")?;
    let Ok(mut journal) = Journal::create(alloc, disk, 3, 1000) else {
        return Err(Fail::from("it is created"));
    };
    assert_eq!(rt; keep(&mut journal, &[5, 6, 7])?, Kept::Done);
    assert_eq!(rt; keep(&mut journal, &[8])?, Kept::Done);
    assert!(rt; FileDisk::open(&rt, "journal_folder/journal").is_err());
    drop(journal);
    assert_eq!(rt;
        fs::metadata(&rt, "journal_folder/journal")?.len(),
        17 + 8 + 6
    );
    let disk = FileDisk::open(&rt, "journal_folder/journal")?;
    let Ok(mut journal) = Journal::open(alloc, disk, 1000) else {
        return Err(Fail::from("it is opened"));
    };
    assert_eq!(rt;
        (journal.repository(), journal.count(), journal.used()),
        (3, 2, 31)
    );
    assert!(rt; has_record(alloc, &mut journal, 0, &[5, 6, 7]));
    fs::remove_dir_all(&rt, "journal_folder")?;
    Ok(())
}
