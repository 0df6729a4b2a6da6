use crate::{Doc, DocError, Fields, Items};
use std::alloc::Global;
use std::collections::BTreeMap;
use std::test::Fail;
use sysapi_base::{Id, Text};

/// The compact text of what the bytes are read as.
fn rewritten(alloc: Global, bytes: &[u8]) -> Result<Vec<u8>, Fail> {
    Ok(Doc::read(alloc, bytes)?.write(alloc)?)
}

/// Lists within lists, and nothing in the innermost.
fn nested(alloc: Global, depth: u8) -> Result<Vec<u8>, Fail> {
    let depth = usize::from(depth);
    let mut text = Vec::new(alloc);
    text.resize(depth, b'[')?;
    text.resize(2 * depth, b']')?;
    Ok(text)
}

/// An object with two values for one name.
fn twice(alloc: Global, first: &[u8], second: &[u8]) -> Result<Vec<u8>, Fail> {
    let mut text = Vec::from_slice(alloc, b"{\"a\":")?;
    text.extend_from_slice(first)?;
    text.extend_from_slice(b",\"a\":")?;
    text.extend_from_slice(second)?;
    text.extend_from_slice(b"}")?;
    Ok(text)
}

#[test]
fn writes_names_in_order(rt: HostRuntime) -> Result<(), Fail> {
    let text = rewritten(rt.alloc(), b"{\"b\":1,\"a\":[true,null]}")?;
    assert_eq!(rt; text.as_slice(), b"{\"a\":[true,null],\"b\":1}".as_slice());
    Ok(())
}

#[test]
fn copies_and_measures(rt: HostRuntime) -> Result<(), Fail> {
    let alloc = rt.alloc();
    let copy = Doc::read(alloc, b"{\"b\":1,\"a\":[true,null]}")?.copy(alloc)?;
    assert_eq!(rt; copy.written_len(), 23);
    assert_eq!(rt;
        copy.write(alloc)?.as_slice(),
        b"{\"a\":[true,null],\"b\":1}".as_slice()
    );
    Ok(())
}

#[test]
fn finds_references(rt: HostRuntime) -> Result<(), Fail> {
    let alloc = rt.alloc();
    let one = Doc::read(
        alloc,
        b"{\"@id\":\"00000000-0000-0000-0000-00000000000A\",\"name\":1}",
    )?;
    assert_eq!(rt; one.as_reference(), Some(Id::from_u128(10)));
    assert_eq!(rt; one.reference_at(0), Some(Id::from_u128(10)));
    assert_eq!(rt; one.reference_at(1), None);
    let many = Doc::read(
        alloc,
        b"[null,{\"@id\":\"x\"},{\"@id\":\"00000000-0000-0000-0000-000000000002\"},[],{\"@id\":3},{\"@id\":\"00000000-0000-0000-0000-000000000001\"}]",
    )?;
    assert_eq!(rt; many.as_reference(), None);
    assert_eq!(rt; many.reference_at(0), Some(Id::from_u128(2)));
    assert_eq!(rt; many.reference_at(1), Some(Id::from_u128(1)));
    assert_eq!(rt; many.reference_at(2), None);
    assert_eq!(rt; Doc::Null.reference_at(0), None);
    Ok(())
}

#[test]
fn tells_each_error(rt: HostRuntime) -> Result<(), Fail> {
    let alloc = rt.alloc();
    assert!(rt; matches!(Doc::read(alloc, b"\xff"), Err(DocError::NotUtf8)));
    assert!(rt; matches!(Doc::read(alloc, b"{"), Err(DocError::Syntax)));
    for text in [
        "-0",
        "1.5",
        "1e2",
        "18446744073709551616",
        "-9223372036854775809",
    ] {
        assert!(rt; matches!(Doc::read(alloc, text.as_bytes()), Err(DocError::NotWhole)));
    }
    Ok(())
}

#[test]
fn keeps_the_ends_of_the_range(rt: HostRuntime) -> Result<(), Fail> {
    for text in ["0", "18446744073709551615", "-9223372036854775808"] {
        let again = rewritten(rt.alloc(), text.as_bytes())?;
        assert_eq!(rt; again.as_slice(), text.as_bytes());
    }
    Ok(())
}

#[test]
fn nests_to_a_hundred(rt: HostRuntime) -> Result<(), Fail> {
    let alloc = rt.alloc();
    let right = nested(alloc, 100)?;
    assert_eq!(rt;
        rewritten(alloc, right.as_slice())?.as_slice(),
        right.as_slice()
    );
    for depth in [101, 127] {
        let text = nested(alloc, depth)?;
        assert!(rt; matches!(Doc::read(alloc, text.as_slice()), Err(DocError::TooDeep)));
    }
    let text = nested(alloc, 128)?;
    assert!(rt; matches!(Doc::read(alloc, text.as_slice()), Err(DocError::Syntax)));
    Ok(())
}

/// Any document can be asked, be it as deep or with such numbers as none that is read.
#[test]
fn keeps_within_limits(rt: HostRuntime) -> Result<(), Fail> {
    let alloc = rt.alloc();
    let lists = Doc::read(alloc, nested(alloc, 98)?.as_slice())?;
    assert!(rt; lists.is_within(98));
    assert!(rt; !lists.is_within(97));
    let objects = Doc::read(alloc, b"{\"a\":1,\"b\":{\"c\":-1}}")?;
    assert!(rt; objects.is_within(2));
    assert!(rt; !objects.is_within(1));
    assert!(rt; Doc::Whole(-9_223_372_036_854_775_808).is_within(0));
    assert!(rt; Doc::Whole(18_446_744_073_709_551_615).is_within(0));
    for whole in [-9_223_372_036_854_775_809, 18_446_744_073_709_551_616] {
        let mut docs = Vec::new(alloc);
        docs.push(Doc::Whole(whole))?;
        assert!(rt; !Doc::List(Items::of(docs)).is_within(u64::MAX));
    }
    Ok(())
}

#[test]
fn counts_the_last_value_of_a_name(rt: HostRuntime) -> Result<(), Fail> {
    let alloc = rt.alloc();
    let fraction_first = twice(alloc, b"1.5", b"1")?;
    assert_eq!(rt;
        rewritten(alloc, fraction_first.as_slice())?.as_slice(),
        b"{\"a\":1}".as_slice()
    );
    let fraction_last = twice(alloc, b"1", b"1.5")?;
    assert!(rt;
        matches!(
            Doc::read(alloc, fraction_last.as_slice()),
            Err(DocError::NotWhole)
        )
    );
    let deep_first = twice(alloc, nested(alloc, 101)?.as_slice(), b"1")?;
    assert_eq!(rt;
        rewritten(alloc, deep_first.as_slice())?.as_slice(),
        b"{\"a\":1}".as_slice()
    );
    Ok(())
}

/// Quotes, backslashes and control characters are escaped, the short way where there is one (RFC 8259, section 7), and nothing else.
#[test]
fn escapes_what_must_be(rt: HostRuntime) -> Result<(), Fail> {
    let given = b"\"\\u0001\\u001F\\u0008\\f\\n\\r\\t\\\"\\\\\\/\\u007f\\u00e9\\ud83d\\ude00\"";
    let text = rewritten(rt.alloc(), given)?;
    let expected = b"\"\\u0001\\u001f\\b\\f\\n\\r\\t\\\"\\\\/\x7f\xc3\xa9\xf0\x9f\x98\x80\"";
    assert_eq!(rt; text.as_slice(), expected.as_slice());
    Ok(())
}

#[test]
fn builds_and_looks_up(rt: HostRuntime) -> Result<(), Fail> {
    let alloc = rt.alloc();
    let mut docs = Vec::new(alloc);
    docs.push(Doc::Bool(false))?;
    docs.push(Doc::Object(Fields::of(BTreeMap::new(alloc))))?;
    let name = Text::of(String::from_str(alloc, "x")?);
    let mut fields = Fields::new(alloc);
    fields.insert(alloc, "name", Doc::of_text_or_null(alloc, &Some(name))?)?;
    fields.insert(alloc, "list", Doc::List(Items::of(docs)))?;
    fields.insert(alloc, "name", Doc::of_text(alloc, "y")?)?;
    fields.insert(alloc, "description", Doc::of_text_or_null(alloc, &None)?)?;
    assert!(rt;
        matches!(fields.get("list"), Some(Doc::List(items)) if items.as_slice().len() == 2)
    );
    let doc = Doc::Object(fields);
    assert!(rt; matches!(doc.field("name"), Some(Doc::Text(text)) if text.as_str() == "y"));
    assert!(rt; doc.field("other").is_none());
    let text = doc.write(alloc)?;
    assert_eq!(rt;
        text.as_slice(),
        b"{\"description\":null,\"list\":[false,{}],\"name\":\"y\"}".as_slice()
    );
    Ok(())
}
