//! The example of docs/USING.md: check the schemas once, then each instance.
use js_output::{Bundle, Format, Schemas, Sink, read, run_finished, verdict};
use std::alloc::Global;
use std::test::Fail;

fn person_schemas(alloc: Global, document: &str) -> Result<Schemas, Fail> {
    let mut bundle = Bundle::new(alloc);
    bundle.add("file:///person.schema.json", document.as_bytes())?;
    match bundle.finish(alloc) {
        Ok(schemas) => Ok(schemas),
        Err((refusal, _bundle)) => Err(Fail::from(refusal)),
    }
}

fn is_person(alloc: Global, schemas: &Schemas, instance: &str) -> Result<bool, Fail> {
    let place = schemas.entry(alloc, "https://example.com/person")?;
    // Shows the prover that it is a place of these schemas, as `verdict` requires.
    if !schemas.has(place) {
        return Err(Fail::from("no such schema"));
    }
    let value = read(alloc, instance.as_bytes())?;
    Ok(verdict(alloc, schemas, place, &value)?)
}

fn report(alloc: Global, schemas: &Schemas, instance: &str) -> Result<String, Fail> {
    let entry = "https://example.com/person";
    let mut out = Sink::new(Vec::new(alloc));
    run_finished(
        alloc,
        schemas,
        entry,
        instance.as_bytes(),
        Format::Basic,
        &mut out,
    )?;
    Ok(String::from_utf8(out.into_device())?)
}

const PERSON: &str = r#"{
  "$schema": "https://json-schema.org/draft/2020-12/schema",
  "$id": "https://example.com/person",
  "type": "object",
  "properties": {
    "name": {"type": "string"},
    "age": {"type": "integer", "minimum": 0}
  },
  "required": ["name"]
}"#;

const ANSWERS: &str = concat!(
    "true false ",
    r#"{"errors":[{"absoluteKeywordLocation":"https://example.com/person#/properties/age/minimum","#,
    r#""error":"less than 0","instanceLocation":"/age","keywordLocation":"/properties/age/minimum","#,
    r#""valid":false}],"valid":false}"#,
    "\n"
);

// The verdicts on two persons, and the report on the second.
fn answers(alloc: Global, schemas: &Schemas) -> Result<String, Fail> {
    let second = r#"{"name": "Ada", "age": -1}"#;
    let is_first = is_person(alloc, schemas, r#"{"name": "Ada", "age": 36}"#)?;
    let is_second = is_person(alloc, schemas, second)?;
    let report = report(alloc, schemas, second)?;
    Ok(format!(in alloc; "{is_first} {is_second} {report}")?)
}

#[test]
fn validates_instances(rt: HostRuntime) -> Result<(), Fail> {
    let schemas = person_schemas(rt.alloc(), PERSON)?;
    let answers = answers(rt.alloc(), &schemas);
    drop(schemas);
    assert_eq!(rt; answers?.as_str(), ANSWERS);
    Ok(())
}
