use crate::{
    BodyKind, Branch, Change, Changes, Command, Commit, Project, ShapeError, Tag, Version,
};
use doc_value::Doc;
use std::alloc::Global;
use std::test::Fail;
use sysapi_base::{Id, Ids, Moment};

/// What a body of this kind asks for, where the project of the route is 7.
fn asked(alloc: Global, kind: BodyKind, body: &[u8]) -> Result<Result<Command, ShapeError>, Fail> {
    let doc = Doc::read(alloc, body)?;
    let mut ids = Vec::new(alloc);
    if kind != BodyKind::Project {
        ids.push(Id::from_u128(7))?;
    }
    Ok(Command::from_body(alloc, kind, &doc, &Ids::of(ids), None))
}

/// Whether this key of the body is wrong.
fn is_wrong(alloc: Global, kind: BodyKind, body: &[u8], key: &str) -> Result<bool, Fail> {
    let answer = asked(alloc, kind, body)?;
    let tells = match &answer {
        Err(ShapeError::BadShape { key: told }) => told.as_str() == key,
        _ => false,
    };
    Ok(tells)
}

/// The same of a commit's body.
fn is_wrong_commit(alloc: Global, body: &[u8], key: &str) -> Result<bool, Fail> {
    is_wrong(alloc, BodyKind::Commit, body, key)
}

#[test]
fn names_the_wrong_key_of_a_project(rt: HostRuntime) -> Result<(), Fail> {
    let alloc = rt.alloc();
    let kind = BodyKind::Project;
    assert!(rt; is_wrong(alloc, kind, b"[]", "")?);
    assert!(rt; is_wrong(alloc, kind, b"{\"description\":[],\"name\":7}", "name")?);
    assert!(rt;
        is_wrong(
            alloc,
            kind,
            b"{\"description\":[],\"name\":null}",
            "description"
        )?
    );
    let made = asked(alloc, kind, b"{\"name\":\"x\",\"other\":1}")?;
    let named = match &made {
        Ok(
            Command::CreateProject {
                name: Some(name),
                description: None,
            },
        ) => name.as_str() == "x",
        _ => false,
    };
    assert!(rt; named);
    Ok(())
}

/// `change` before `description` before `previousCommit`, and of `change` the members before what is in them.
#[test]
fn names_the_wrong_key_of_a_commit(rt: HostRuntime) -> Result<(), Fail> {
    let alloc = rt.alloc();
    assert!(rt; is_wrong_commit(alloc, b"[]", "")?);
    assert!(rt; is_wrong_commit(alloc, b"{\"change\":1,\"description\":1}", "change")?);
    assert!(rt; is_wrong_commit(alloc, b"{\"change\":[{\"identity\":1},2]}", "change")?);
    assert!(rt;
        is_wrong_commit(
            alloc,
            b"{\"change\":[{\"identity\":{},\"payload\":1}]}",
            "identity"
        )?
    );
    assert!(rt;
        is_wrong_commit(
            alloc,
            b"{\"change\":[{\"payload\":1}],\"description\":1}",
            "payload"
        )?
    );
    assert!(rt; is_wrong_commit(alloc, b"{\"change\":[{\"payload\":{\"@id\":null}}]}", "@id")?);
    assert!(rt;
        is_wrong_commit(
            alloc,
            b"{\"description\":1,\"previousCommit\":1}",
            "description"
        )?
    );
    assert!(rt; is_wrong_commit(alloc, b"{\"previousCommit\":[{}]}", "previousCommit")?);
    assert!(rt;
        is_wrong_commit(
            alloc,
            b"{\"change\":null,\"previousCommit\":\"x\"}",
            "previousCommit"
        )?
    );
    Ok(())
}

#[test]
fn makes_a_commit(rt: HostRuntime) -> Result<(), Fail> {
    let alloc = rt.alloc();
    let body =
        b"{\"change\":[{\"identity\":{\"@id\":\"00000000-0000-0000-0000-00000000000a\"}},{\"payload\":{\"name\":\"x\"}}],\"previousCommit\":[{\"@id\":\"00000000-0000-0000-0000-00000000000b\"}]}";
    let made = asked(alloc, BodyKind::Commit, body)?;
    let Ok(
        Command::CreateCommit {
            project,
            branch,
            previous,
            description,
            changes,
        },
    ) = &made
    else {
        return Err(Fail::new("no commit"));
    };
    assert!(rt; project.number() == 7);
    assert!(rt; branch.is_none());
    assert!(rt; previous.as_slice().len() == 1);
    assert!(rt; matches!(previous.as_slice().first(), Some(id) if id.number() == 11));
    assert!(rt; description.is_none());
    assert!(rt; changes.as_slice().len() == 2);
    let Some(deleted) = changes.as_slice().first() else {
        return Err(Fail::new("no change"));
    };
    assert!(rt; matches!(deleted.identity, Some(id) if id.number() == 10));
    assert!(rt; deleted.payload.is_none());
    let Some(stored) = changes.as_slice().last() else {
        return Err(Fail::new("no change"));
    };
    assert!(rt; stored.identity.is_none());
    assert!(rt; matches!(&stored.payload, Some(payload) if payload.field("name").is_some()));
    Ok(())
}

#[test]
fn names_the_wrong_key_of_an_update(rt: HostRuntime) -> Result<(), Fail> {
    let alloc = rt.alloc();
    let kind = BodyKind::ProjectUpdate;
    assert!(rt;
        is_wrong(
            alloc,
            kind,
            b"{\"defaultBranch\":1,\"description\":1}",
            "description"
        )?
    );
    assert!(rt; is_wrong(alloc, kind, b"{\"defaultBranch\":[]}", "defaultBranch")?);
    let made = asked(
        alloc,
        kind,
        b"{\"defaultBranch\":{\"@id\":\"00000000-0000-0000-0000-00000000000a\"}}",
    )?;
    let given = match &made {
        Ok(
            Command::UpdateProject {
                name: None,
                default_branch: Some(branch),
                ..
            },
        ) => branch.number() == 10,
        _ => false,
    };
    assert!(rt; given);
    Ok(())
}

/// `referencedCommit` counts where `head` is absent, and is not looked at where `head` is null.
#[test]
fn names_the_wrong_key_of_a_branch(rt: HostRuntime) -> Result<(), Fail> {
    let alloc = rt.alloc();
    let kind = BodyKind::Branch;
    assert!(rt; is_wrong(alloc, kind, b"{\"name\":7}", "name")?);
    assert!(rt; is_wrong(alloc, kind, b"{\"head\":1}", "head")?);
    assert!(rt; is_wrong(alloc, kind, b"{\"referencedCommit\":1}", "referencedCommit")?);
    for body in [
        b"{\"name\":\"x\"}".as_slice(),
        b"{\"head\":null,\"name\":\"x\",\"referencedCommit\":1}".as_slice(),
    ] {
        let made = asked(alloc, kind, body)?;
        let named = match &made {
            Ok(
                Command::CreateBranch {
                    name: Some(name),
                    head: None,
                    ..
                },
            ) => name.as_str() == "x",
            _ => false,
        };
        assert!(rt; named);
    }
    Ok(())
}

/// One of the two keys of a tag's commit has to be there, and null is there.
#[test]
fn names_the_wrong_key_of_a_tag(rt: HostRuntime) -> Result<(), Fail> {
    let alloc = rt.alloc();
    let kind = BodyKind::Tag;
    assert!(rt; is_wrong(alloc, kind, b"{}", "taggedCommit")?);
    assert!(rt;
        is_wrong(
            alloc,
            kind,
            b"{\"referencedCommit\":null}",
            "referencedCommit"
        )?
    );
    let both =
        b"{\"referencedCommit\":{\"@id\":\"00000000-0000-0000-0000-00000000000a\"},\"taggedCommit\":null}";
    assert!(rt; is_wrong(alloc, kind, both, "taggedCommit")?);
    let made = asked(
        alloc,
        kind,
        b"{\"referencedCommit\":{\"@id\":\"00000000-0000-0000-0000-00000000000a\"}}",
    )?;
    assert!(rt; matches!(&made, Ok(Command::CreateTag { commit, .. }) if commit.number() == 10));
    Ok(())
}

/// A payload of depth 97 stands in a body of depth 100.
#[test]
fn takes_the_deepest_payload(rt: HostRuntime) -> Result<(), Fail> {
    let alloc = rt.alloc();
    let mut body = Vec::from_slice(alloc, b"{\"change\":[{\"payload\":{\"x\":")?;
    for _ in 0..96 {
        body.push(b'[')?;
    }
    for _ in 0..96 {
        body.push(b']')?;
    }
    body.extend_from_slice(b"}}]}")?;
    let answer = asked(alloc, BodyKind::Commit, body.as_slice())?;
    let taken = match &answer {
        Ok(Command::CreateCommit { changes, .. }) => changes.as_slice().len(),
        _ => 0,
    };
    assert_eq!(rt; taken, 1);
    Ok(())
}

/// A commit with one change, which stores this payload.
fn storing(alloc: Global, payload: &[u8]) -> Result<Command, Fail> {
    let mut changes = Vec::new(alloc);
    changes.push(Change {
        identity: None,
        payload: Some(Doc::read(alloc, payload)?),
    })?;
    Ok(Command::CreateCommit {
        project: Id::from_u128(7),
        branch: None,
        previous: Ids::of(Vec::new(alloc)),
        description: None,
        changes: Changes::of(changes),
    })
}

/// An object of this depth.
fn deep(alloc: Global, depth: usize) -> Result<Vec<u8>, Fail> {
    let mut text = Vec::from_slice(alloc, b"{\"x\":")?;
    for _ in 1..depth {
        text.push(b'[')?;
    }
    for _ in 1..depth {
        text.push(b']')?;
    }
    text.push(b'}')?;
    Ok(text)
}

#[test]
fn tells_what_can_be_stored(rt: HostRuntime) -> Result<(), Fail> {
    let alloc = rt.alloc();
    let id = b"{\"@id\":\"00000000-0000-0000-0000-00000000000a\"}";
    let right = storing(alloc, id)?;
    assert!(rt; right.is_storable());
    assert_eq!(rt; right.encoded_len(), 87);
    assert!(rt; storing(alloc, deep(alloc, 97)?.as_slice())?.is_storable());
    assert!(rt; !storing(alloc, deep(alloc, 98)?.as_slice())?.is_storable());
    assert!(rt; !storing(alloc, b"[]")?.is_storable());
    assert!(rt; !storing(alloc, b"{\"@id\":\"1\"}")?.is_storable());
    assert!(rt;
        Command::DeleteProject {
            project: Id::from_u128(7)
        }
        .is_storable()
    );
    Ok(())
}

#[test]
fn tells_records(rt: HostRuntime) -> Result<(), Fail> {
    let alloc = rt.alloc();
    let id = Id::from_u128(1);
    let other = Id::from_u128(2);
    let created = Moment::at_most(0);
    let project = Project {
        id,
        name: None,
        description: None,
        default_branch: other,
        created,
    };
    let text = project.to_doc(alloc)?.write(alloc)?;
    assert_eq!(rt;
        text.as_slice(),
        b"{\"@id\":\"00000000-0000-0000-0000-000000000001\",\"@type\":\"Project\",\"created\":\"1970-01-01T00:00:00.000Z\",\"defaultBranch\":{\"@id\":\"00000000-0000-0000-0000-000000000002\"},\"description\":null,\"name\":null}".as_slice()
    );
    let branch = Branch {
        id,
        project: other,
        name: None,
        head: None,
        created,
    };
    let text = branch.to_doc(alloc)?.write(alloc)?;
    assert_eq!(rt;
        text.as_slice(),
        b"{\"@id\":\"00000000-0000-0000-0000-000000000001\",\"@type\":\"Branch\",\"created\":\"1970-01-01T00:00:00.000Z\",\"head\":null,\"name\":null,\"owningProject\":{\"@id\":\"00000000-0000-0000-0000-000000000002\"},\"referencedCommit\":null}".as_slice()
    );
    let commit = Commit {
        id,
        project: other,
        description: None,
        previous: None,
        created,
    };
    let text = commit.to_doc(alloc)?.write(alloc)?;
    assert_eq!(rt;
        text.as_slice(),
        b"{\"@id\":\"00000000-0000-0000-0000-000000000001\",\"@type\":\"Commit\",\"created\":\"1970-01-01T00:00:00.000Z\",\"description\":null,\"owningProject\":{\"@id\":\"00000000-0000-0000-0000-000000000002\"},\"previousCommit\":null}".as_slice()
    );
    let tag = Tag {
        id,
        project: other,
        name: None,
        commit: other,
        created,
    };
    let text = tag.to_doc(alloc)?.write(alloc)?;
    assert_eq!(rt;
        text.as_slice(),
        b"{\"@id\":\"00000000-0000-0000-0000-000000000001\",\"@type\":\"Tag\",\"created\":\"1970-01-01T00:00:00.000Z\",\"name\":null,\"owningProject\":{\"@id\":\"00000000-0000-0000-0000-000000000002\"},\"referencedCommit\":{\"@id\":\"00000000-0000-0000-0000-000000000002\"},\"taggedCommit\":{\"@id\":\"00000000-0000-0000-0000-000000000002\"}}".as_slice()
    );
    let version = Version {
        id,
        identity: other,
        payload: None,
    };
    let text = version.to_doc(alloc)?.write(alloc)?;
    assert_eq!(rt;
        text.as_slice(),
        b"{\"@id\":\"00000000-0000-0000-0000-000000000001\",\"@type\":\"DataVersion\",\"identity\":{\"@id\":\"00000000-0000-0000-0000-000000000002\",\"@type\":\"DataIdentity\"},\"payload\":null}".as_slice()
    );
    Ok(())
}
