use crate::Id;
use std::str;
use std::test::Fail;

#[test]
fn made_ids_have_their_text(rt: HostRuntime) -> Result<(), Fail> {
    for (repository, serial, text) in [
        (1, 0, "00000000-0001-8000-8000-000000000000"),
        (1, 0x1f7, "00000000-0001-8000-8000-0000000001f7"),
        (
            0xffff_ffff_ffff,
            0x3fff_ffff_ffff_ffff,
            "ffffffff-ffff-8000-bfff-ffffffffffff",
        ),
    ] {
        let id = Id::made(repository, serial);
        assert_eq!(rt; str::from_utf8(&id.text())?, text);
        assert_eq!(rt; Id::parse(text), Some(id));
    }
    Ok(())
}

#[test]
fn only_the_hyphenated_text_is_an_ids(rt: HostRuntime) {
    let id = Id::from_u128(0xabcd_ef01_2345_6789_abcd_ef01_2345_6789);
    assert_eq!(rt; Id::parse("ABCDEF01-2345-6789-abcd-EF0123456789"), Some(id));
    for text in [
        "",
        "abcdef0123456789abcdef0123456789",
        "{abcdef01-2345-6789-abcd-ef0123456789}",
        "urn:uuid:abcdef01-2345-6789-abcd-ef0123456789",
        "abcdef01-2345-6789-abcd-ef012345678g",
        "abcdef012-345-6789-abcd-ef0123456789",
    ] {
        assert_eq!(rt; Id::parse(text), None, "at {text}");
    }
}
