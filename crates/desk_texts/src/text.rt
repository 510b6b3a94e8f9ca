ghost use Rattle.std.specs.Prelude.{◌≡◌, ◌++◌, [], ◌∷◌, IfOk, IfSome, OnOk};
ghost use Rattle.dep_model.specs.Deps.{dependencies_of};
ghost use Rattle.desk_texts.specs.Texts.{line, overlong_text};

use byte_texts::add;
use dep_model::{Dep, MOST_DEPENDENCIES, OutOfMemory};
use std::alloc::Global;
use std::fmt::Display;

/// A value as it prints itself, at the end of a text.
pub fn add_displayed<D: Display>(
    text: &mut Vec<u8>,
    alloc: Global,
    value: &D,
) -> Result<(), OutOfMemory>
    ensures added { OnOk result (IfSome (D.output value.now)
        (λ bytes. text.new.items ≡ text.old.items ++ bytes)) }
{
    add(text, value.to_string(alloc)?.as_bytes())
}

/// Two pieces more at the end of a text.
pub fn put_pair(text: &mut Vec<u8>, front: &[u8], back: &[u8]) -> Result<(), OutOfMemory>
    ensures added { OnOk result (text.new.items ≡ text.old.items ++ (front.now ++ back.now)) }
{
    add(text, front)?;
    add(text, back)
}

/// A line of three pieces.
pub fn line_of(
    alloc: Global,
    front: &[u8],
    middle: &[u8],
    back: &[u8],
) -> Result<Vec<u8>, OutOfMemory>
    ensures line { IfOk result (λ text. text.items ≡ line (front.now ++ middle.now ++ back.now)) }
{
    let mut text = Vec::new(alloc);
    add(&mut text, front)?;
    add(&mut text, middle)?;
    add(&mut text, back)?;
    add(&mut text, b"\n")?;
    Ok(text)
}

/// A comment where there are more dependencies than a schema file takes.
pub fn overlong_comment(alloc: Global, rules: &[Dep]) -> Result<Vec<u8>, OutOfMemory>
    ensures comment { IfOk result (λ text. text.items ≡ overlong_text (dependencies_of rules.now)) }
{
    if rules.len() > MOST_DEPENDENCIES {
        let comment = b"# more than 4096 dependencies: no schema file takes so many";
        return line_of(alloc, comment, b"", b"");
    }
    Ok(Vec::new(alloc))
}
