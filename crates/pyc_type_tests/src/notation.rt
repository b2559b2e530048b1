//! Types in postfix words, as `str int None or dict_of` for `dict[str, int | None]`, so that a row of a test is text.

use pyc_ast::Text;
use pyc_types::*;
use std::alloc::{AllocError, Global};
use std::rc::Rc;
use std::test::Fail;

/// Puts the types that words spell on a stack: each word puts one, for which it takes its parts off it.
pub(crate) fn push_types(alloc: Global, words: &str, stack: &mut Vec<Ty>) -> Result<(), Fail> {
    for word in words.split(' ') {
        let made = made(alloc, word, stack)?;
        stack.push(made)?;
    }
    Ok(())
}

/// The types that words spell.
pub(crate) fn types_of(alloc: Global, words: &str) -> Result<Vec<Ty>, Fail> {
    let mut stack = Vec::new(alloc);
    push_types(alloc, words, &mut stack)?;
    Ok(stack)
}

/// The last of the types that words spell.
pub(crate) fn type_of(alloc: Global, words: &str) -> Result<Ty, Fail> {
    taken(&mut types_of(alloc, words)?)
}

/// The builtin class of this name.
fn class_of(name: &str) -> Result<BuiltinClass, Fail> {
    match builtin_name(name) {
        Some(BuiltinName::Class(class)) => Ok(class),
        _ => Err("no word for a type")?,
    }
}

/// The builtin classes of these names.
pub(crate) fn classes_of(alloc: Global, names: &str) -> Result<Vec<ClassId>, Fail> {
    let mut classes = Vec::new(alloc);
    for name in names.split(' ') {
        if let Some(BuiltinName::Class(class)) = builtin_name(name) {
            classes.push(ClassId::builtin(class))?;
        }
    }
    Ok(classes)
}

/// The type that a word stands for, by the types before it.
fn made(alloc: Global, word: &str, stack: &mut Vec<Ty>) -> Result<Ty, Fail> {
    match word {
        "Any" => Ok(Ty::Any),
        "None" => Ok(Ty::None),
        "Module" => Ok(module(alloc, "m")?),
        "OtherModule" => Ok(module(alloc, "other")?),
        "list_of" => Ok(Ty::List(shared(alloc, stack)?)),
        "tuple_of" => Ok(Ty::TupleOf(shared(alloc, stack)?)),
        "dict_of" => dict(alloc, stack),
        "nothing" => tuple(alloc, 0, stack),
        "single" => tuple(alloc, 1, stack),
        "pair" => tuple(alloc, 2, stack),
        "or" => either(alloc, stack),
        "dots" => dots(alloc, taken(stack)?),
        "takes_nothing" => callable(alloc, Vec::new(alloc)),
        _ => made_otherwise(alloc, word, stack),
    }
}

/// A function of one parameter, a class of a source as `m.C`, a class as an object as `type:int`, or the instance of a
/// builtin class.
fn made_otherwise(alloc: Global, word: &str, stack: &mut Vec<Ty>) -> Result<Ty, Fail> {
    if let Some(kind) = kind_of(alloc, word)? {
        return unary(alloc, kind, word == "may_take", stack);
    }
    if let Some((module_path, name)) = word.split_once('.') {
        return Ok(Ty::Instance(class_at(alloc, module_path, name)?));
    }
    match word.strip_prefix("type:") {
        Some(name) => Ok(Ty::Class(ClassId::builtin(class_of(name)?))),
        None => Ok(Ty::Instance(ClassId::builtin(class_of(word)?))),
    }
}

/// The kind of the one parameter of the function that a word stands for.
fn kind_of(alloc: Global, word: &str) -> Result<Option<ParamKind>, AllocError> {
    Ok(match word {
        "takes" | "may_take" => Some(ParamKind::Plain(None)),
        "takes_n" => Some(ParamKind::Plain(Some(n(alloc)?))),
        "takes_only_n" => Some(ParamKind::KeywordOnly(n(alloc)?)),
        "takes_each" => Some(ParamKind::Star),
        "takes_words" => Some(ParamKind::DoubleStar),
        _ => None,
    })
}

/// The class of this name in the module of one name.
pub(crate) fn class_at(
    alloc: Global,
    module_path: &str,
    name: &str,
) -> Result<ClassId, AllocError> {
    ClassId::user(alloc, parts(alloc, module_path)?, Text::new(alloc, name)?)
}

/// The one part of the name of a module.
fn parts(alloc: Global, name: &str) -> Result<Vec<Text>, AllocError> {
    Ok(vec![in alloc; Text::new(alloc, name)?]?)
}

fn n(alloc: Global) -> Result<Text, AllocError> {
    Text::new(alloc, "n")
}

/// The module of this name.
fn module(alloc: Global, name: &str) -> Result<Ty, AllocError> {
    Ok(Ty::Module(Rc::new(alloc, parts(alloc, name)?)?))
}

fn taken(stack: &mut Vec<Ty>) -> Result<Ty, Fail> {
    match stack.pop() {
        Some(ty) => Ok(ty),
        None => Err("no type is left")?,
    }
}

fn shared(alloc: Global, stack: &mut Vec<Ty>) -> Result<Rc<Ty>, Fail> {
    Ok(Rc::new(alloc, taken(stack)?)?)
}

fn dict(alloc: Global, stack: &mut Vec<Ty>) -> Result<Ty, Fail> {
    let value = taken(stack)?;
    let key = taken(stack)?;
    Ok(Ty::Dict(Rc::new(alloc, DictTypes { key, value })?))
}

/// So many types off the stack, in the order in which they were put.
fn last(alloc: Global, count: usize, stack: &mut Vec<Ty>) -> Result<Vec<Ty>, Fail> {
    let mut items = Vec::new(alloc);
    for _ in 0..count {
        items.insert(0, taken(stack)?)?;
    }
    Ok(items)
}

fn tuple(alloc: Global, count: usize, stack: &mut Vec<Ty>) -> Result<Ty, Fail> {
    Ok(Ty::Tuple(Rc::new(alloc, last(alloc, count, stack)?)?))
}

/// A union as it is written, of two types.
fn either(alloc: Global, stack: &mut Vec<Ty>) -> Result<Ty, Fail> {
    Ok(Ty::Union(Rc::new(alloc, last(alloc, 2, stack)?)?))
}

fn dots(alloc: Global, gives: Ty) -> Result<Ty, Fail> {
    function(alloc, Params::Dots, gives)
}

/// A function of these parameters that gives None.
fn callable(alloc: Global, params: Vec<Param>) -> Result<Ty, Fail> {
    function(alloc, Params::Listed(params), Ty::None)
}

fn function(alloc: Global, params: Params, gives: Ty) -> Result<Ty, Fail> {
    let signature = Signature {
        params,
        result: gives,
    };
    Ok(Ty::Callable(Rc::new(alloc, signature)?))
}

fn unary(
    alloc: Global,
    kind: ParamKind,
    is_optional: bool,
    stack: &mut Vec<Ty>,
) -> Result<Ty, Fail> {
    let ty = taken(stack)?;
    let param = Param {
        kind,
        ty,
        is_optional,
    };
    callable(alloc, vec![in alloc; param]?)
}
