ghost use Rattle.std.specs.Prelude.{◌≡◌, ◌∷◌, IfOk, IfSome, nat_le};
ghost use Rattle.serde_json.specs.Data.{depth, items_depth, members_depth};
ghost use Rattle.serde_json.specs.Find.{as_integer};
ghost use Rattle.serde_json.specs.View.{view, number_view, items_view, members_view};
ghost use Rattle.doc_value.specs.Document.{IsSound, IsProper, AreProper, object, IsInRange, HasRange, MembersHaveRange, FieldsHaveRange, members_of, fields_of};
ghost use Rattle.doc_value.specs.Seen.{document, documents, all_named};
ghost use Rattle.doc_value.specs.Data.{document_of, members_in, fields_in};
ghost use Rattle.doc_value.specs.Read.{Gives, if_whole, reading};

use crate::doc::{Doc, Fields, Items};
use crate::error::DocError;
use serde_json::{Map, Number, Value};
use std::alloc::Global;
use std::collections::BTreeMap;
use std::str;
use sysapi_base::Text;

impl Doc {
    /// The document that the bytes are: a JSON text (RFC 8259) in UTF-8 whose numbers are all whole, from -2^63 to 2^64 - 1, and
    /// whose depth is at most 100. Of a name that occurs twice in an object the last value alone counts (RFC 8259, section 4,
    /// leaves this open), for numbers and depth too. `DocError` says when each error comes.
    pub fn read(alloc: Global, bytes: &[u8]) -> Result<Doc, DocError>
        ensures exact { Gives document result (reading bytes.now) }
        ensures sound { IfOk result (λ d. IsSound (document d)) }
        ensures proper { IfOk result (λ d. IsProper (document d)) }
    {
        let Ok(text) = str::from_utf8(bytes) else {
            return Err(DocError::NotUtf8);
        };
        let value = match Value::from_str(alloc, text) {
            Ok(value) => value,
            Err(error) => {
                if error.is_memory() {
                    return Err(DocError::Memory);
                }
                return Err(DocError::Syntax);
            }
        };
        if !nests_within(&value, 100) {
            return Err(DocError::TooDeep);
        }
        from_value(alloc, value)
    }
}

/// Whether lists and objects nest at most so deep.
#[cycle(nests)]
fn nests_within(value: &Value, limit: u8) -> bool
    ensures { result ≡ nat_le (depth (view value.now)) limit }
{
    match value {
        Value::Array(items) => limit > 0 && items_nest_within(items, limit - 1),
        Value::Object(members) => limit > 0 && members_nest_within(members, limit - 1),
        _ => true,
    }
}

#[cycle(nests)]
fn items_nest_within(items: &Vec<Value>, limit: u8) -> bool
    ensures { result ≡ nat_le (items_depth (items_view items.now.items)) limit }
{
    for item in items {
        if !nests_within(item, limit) {
            return false;
        }
    }
    true
}

#[cycle(nests)]
fn members_nest_within(members: &Map<String, Value>, limit: u8) -> bool
    ensures { result ≡ nat_le (members_depth (members_view members.now.entries)) limit }
{
    for (_, member) in members.iter() {
        if !nests_within(member, limit) {
            return false;
        }
    }
    true
}

#[cycle(from_value)]
fn from_value(alloc: Global, value: Value) -> Result<Doc, DocError>
    ensures exact { Gives document result (if_whole (document_of (view value))) }
    ensures range { IfOk result (λ d. HasRange (document d)) }
    ensures proper { IfOk result (λ d. IsProper (document d)) }
{
    match value {
        Value::Null => Ok(Doc::Null),
        Value::Bool(b) => Ok(Doc::Bool(b)),
        Value::Number(number) => match whole_of(&number) {
            Some(n) => Ok(Doc::Whole(n)),
            None => Err(DocError::NotWhole),
        },
        Value::String(text) => Ok(Doc::Text(Text::of(text))),
        Value::Array(items) => Ok(Doc::List(Items::of(from_items(alloc, items)?))),
        Value::Object(members) => Ok(Doc::Object(Fields::of(from_members(alloc, members)?))),
    }
}

#[cycle(from_value)]
fn from_items(alloc: Global, items: Vec<Value>) -> Result<Vec<Doc>, DocError>
    ensures exact { Gives (λ v. members_of (documents v.items)) result (if_whole (members_in (items_view items.items))) }
    ensures range { IfOk result (λ v. MembersHaveRange (members_of (documents v.items))) }
    ensures proper { IfOk result (λ v. AreProper (members_of (documents v.items))) }
{
    let mut docs = Vec::with_capacity(alloc, items.len())?;
    for item in items {
        docs.push(from_value(alloc, item)?)?;
    }
    Ok(docs)
}

#[cycle(from_value)]
fn from_members(
    alloc: Global,
    members: Map<String, Value>,
) -> Result<BTreeMap<String, Doc>, DocError>
    ensures exact { Gives (λ m. fields_of (all_named m.entries)) result (if_whole (fields_in (members_view members.entries))) }
    ensures range { IfOk result (λ m. FieldsHaveRange (fields_of (all_named m.entries))) }
    ensures proper { IfOk result (λ m. IsProper (object (fields_of (all_named m.entries)))) }
{
    let mut docs = BTreeMap::new(alloc);
    for (name, member) in members {
        drop(docs.insert(name, from_value(alloc, member)?)?);
    }
    Ok(docs)
}

/// The number, where it is whole.
fn whole_of(number: &Number) -> Option<i128>
    ensures value { result ≡ as_integer (number_view number.now) }
    ensures range { IfSome result IsInRange }
{
    match number.as_u64() {
        Some(n) => Some(i128::from(n)),
        None => match number.as_i64() {
            Some(n) => Some(i128::from(n)),
            None => None,
        },
    }
}
