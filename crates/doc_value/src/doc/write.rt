ghost use Rattle.std.specs.Prelude.{◌≡◌, ◌++◌, ◌∷◌, [], Ok, IfOk, OnOk};
ghost use Rattle.json.specs.Token.{number};
ghost use Rattle.json.specs.Tree.{json_tokens, items_tokens, members_tokens};
ghost use Rattle.serde_json.specs.Find.{of_integer};
ghost use Rattle.serde_json.specs.Written.{outline, items_outline, members_outline, number_text};
ghost use Rattle.doc_value.specs.Document.{Document, IsSound, IsInRange, HasRange, MembersHaveRange, FieldsHaveRange, members_of, fields_of, IsProper, AreProper, object};
ghost use Rattle.doc_value.specs.Seen.{document, documents, all_named};
ghost use Rattle.doc_value.specs.Data.{data_of, items_of, json_members_of, compact};
ghost use Rattle.doc_value.specs.Read.{reading};

use crate::doc::Doc;
use json::Writer;
use std::alloc::{AllocError, Global};
use std::collections::BTreeMap;
use sysapi_base::Memory;

impl Doc {
    /// The compact JSON text (RFC 8259): no space outside texts, and the names of each object in the order of their bytes.
    pub fn write(&self, alloc: Global) -> Result<Vec<u8>, Memory>
        requires { IsSound (document self.now) }
        ensures text { IfOk result (λ v. v.items ≡ compact (document self.now)) }
        // What is written reads as the document again.
        ensures reads { OnOk result (reading (compact (document self.now)) ≡ Ok (document self.now)) }
        ensures proper { OnOk result (IsProper (document self.now)) }
    {
        let mut out = Writer::new(Vec::new(alloc));
        write_to(self, &mut out)?;
        Ok(out.into_inner())
    }
}

#[cycle(write_to)]
fn write_to(doc: &Doc, out: &mut Writer) -> Result<(), AllocError>
    requires { HasRange (document doc.now) }
    ensures tokens { OnOk result (out.new.tokens ≡ out.old.tokens ++ json_tokens (outline (data_of (document doc.now)))) }
    ensures before { out.new.before ≡ out.old.before }
    ensures proper { OnOk result (IsProper (document doc.now)) }
{
    match doc {
        Doc::Null => out.null(),
        Doc::Bool(b) => out.boolean(*b),
        Doc::Whole(n) => write_whole(*n, out),
        Doc::Text(text) => out.string(text.as_str()),
        Doc::List(items) => {
            out.begin_array()?;
            write_docs(&items.docs, out)
        }
        Doc::Object(fields) => {
            out.begin_object()?;
            write_fields(&fields.docs, out)
        }
    }
}

#[cycle(write_to)]
fn write_docs(docs: &Vec<Doc>, out: &mut Writer) -> Result<(), AllocError>
    requires { MembersHaveRange (members_of (documents docs.now.items)) }
    ensures tokens { OnOk result (out.new.tokens ≡ out.old.tokens ++ items_tokens (items_outline (items_of (members_of (documents docs.now.items))))) }
    ensures before { out.new.before ≡ out.old.before }
    ensures proper { OnOk result (AreProper (members_of (documents docs.now.items))) }
{
    for doc in docs {
        write_to(doc, out)?;
    }
    out.end_array()
}

#[cycle(write_to)]
fn write_fields(docs: &BTreeMap<String, Doc>, out: &mut Writer) -> Result<(), AllocError>
    requires { FieldsHaveRange (fields_of (all_named docs.now.entries)) }
    ensures tokens { OnOk result (out.new.tokens ≡ out.old.tokens ++ members_tokens (members_outline (json_members_of (fields_of (all_named docs.now.entries))))) }
    ensures before { out.new.before ≡ out.old.before }
    ensures proper { OnOk result (IsProper (object (fields_of (all_named docs.now.entries)))) }
{
    for (name, doc) in docs.iter() {
        out.key(name.as_str())?;
        write_to(doc, out)?;
    }
    out.end_object()
}

fn write_whole(n: i128, out: &mut Writer) -> Result<(), AllocError>
    requires { IsInRange n }
    ensures tokens { OnOk result (out.new.tokens ≡ out.old.tokens ++ number (number_text (of_integer n)) ∷ []) }
    ensures before { out.new.before ≡ out.old.before }
{
    if n < 0 {
        out.i64(n as i64)
    } else {
        out.u64(n as u64)
    }
}

/// The text of each sound document reads as it again.
pub fn reads_back()
    ensures { (d : Document) → IsSound d → IsProper d → reading (compact d) ≡ Ok d }
{}
