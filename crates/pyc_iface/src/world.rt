//! The interfaces of the files of a workspace as they answer keys.

ghost use Rattle.std.specs.Prelude.{◌≡◌, IfOk};
ghost use Rattle.std.specs.List.{list_any};
ghost use Rattle.pyc_class_ids.specs.Class.{Id};
ghost use Rattle.pyc_class_table.specs.MroView.{orders_in};
ghost use Rattle.pyc_iface.specs.Answers as spec;
ghost use Rattle.pyc_iface.specs.Answers.{orders_by};
ghost use Rattle.pyc_iface.specs.Flags.{is_flagged};
ghost use Rattle.pyc_iface.specs.Looks.{answer_looks};
ghost use Rattle.pyc_declarations.specs.KindsView.{declarations_in};
ghost use Rattle.pyc_declarations.specs.Looks.{entries_looks};
ghost use Rattle.pyc_names.specs.CarryLaws.{SameLooks};
ghost use Rattle.pyc_names.specs.InterfaceView.{interfaces_in};
ghost use Rattle.pyc_names.specs.NotedLooks.{nothing_noted, with_looks};
ghost use Rattle.pyc_names.specs.NotedLooksView.{noted_in};
ghost use Rattle.pyc_names.specs.TableView.{table_in};
ghost use Rattle.pyc_reading.specs.AnswerView.{answer_in, class_order_of};
ghost use Rattle.pyc_reading.specs.KeyView.{key_of};

use crate::flags::Flags;
use crate::looked_classes::LookedClasses;
use crate::members::note_order_of;
use pyc_class_ids::{ClassId, Lin, Lins};
use pyc_declarations::{Answers, Declarations};
use pyc_names::{Interface, Looks, Table};
use pyc_reading::{Answer, Key, MroAnswer};
use std::alloc::{AllocError, Global};
use std::rc::Rc;

/// The interfaces of the files of a workspace as they answer keys: the order of each class is made once, and may be
/// shared with a world whose classes have the same orders; each other answer is looked up anew.
#[derive(Drop)]
pub struct PlainWorld {
    pub(crate) table: Table,
    classes: Rc<LookedClasses>,
    ghost classes_are: { (c : Id) → orders_in classes.value.table c ≡ orders_by (table_in table) c },
    ghost looks_are: { noted_in classes.value.looks ≡ with_looks nothing_noted (entries_looks (table_in table)) },
}

/// The answers of a world.
#[derive(Clone, Copy, Drop)]
pub struct PlainWorldAnswers<'a> {
    world: &'a PlainWorld,
}

impl Answers for PlainWorldAnswers<'_> {
    ghost use Rattle.pyc_iface.specs.Answers.{answer_by};
    ghost use Rattle.pyc_iface.specs.PlainWorldView.{answers_in};

    ghost answers = { λ answers. answer_by (answers_in answers) };

    fn answer(&self, alloc: Global, key: &Key) -> Result<Answer, AllocError> {
        self.world.ask(alloc, key)
    }
}

impl Lins for PlainWorld {
    ghost use Rattle.pyc_iface.specs.PlainWorldView.{world_in};

    ghost orders = { λ world. orders_by (world_in world) };

    fn lin(&self, class: &ClassId) -> Lin<'_> {
        self.classes.table.lin(class)
    }
}

impl PlainWorld {
    ghost use Rattle.pyc_iface.specs.PlainWorldView.{answers_in, world_in};

    /// The world of files with these interfaces, which it shares. The only error is that memory runs out.
    pub fn build(alloc: Global, files: &[Rc<Interface>]) -> Result<PlainWorld, AllocError>
        ensures { IfOk result (λ world. world_in world ≡ interfaces_in files.now) }
    {
        let table = Table::build(alloc, files)?;
        PlainWorld::of_table(alloc, table)
    }

    /// The world of the files of a table. The only error is that memory runs out.
    pub fn of_table(alloc: Global, table: Table) -> Result<PlainWorld, AllocError>
        ensures { IfOk result (λ world. world_in world ≡ table_in table) }
    {
        let classes = LookedClasses::build(alloc, &table)?;
        let shared = Rc::new(alloc, classes)?;
        Ok(PlainWorld {
            table,
            classes: shared,
        })
    }

    /// The world of the files of a table whose classes have the orders of these, for which the same is looked at: it
    /// shares them. The only error is that no number is large enough for the shares.
    pub fn with_table(&self, table: Table) -> Result<PlainWorld, AllocError>
        requires orders { orders_by (world_in self.now) ≡ orders_by (table_in table) }
        requires looks { SameLooks (entries_looks (world_in self.now)) (entries_looks (table_in table)) }
        ensures { IfOk result (λ world. world_in world ≡ table_in table) }
    {
        let classes = self.classes.clone()?;
        Ok(PlainWorld { table, classes })
    }

    /// Whether something flagged is looked at for the classes that the files declare.
    pub fn is_any_class_flagged(&self, flags: &Flags) -> bool
        ensures { result ≡ list_any (is_flagged flags.now) (entries_looks (world_in self.now)) }
    {
        self.classes.is_flagged(flags)
    }

    /// The interfaces of the files, by name.
    pub fn table(&self) -> &Table
        ensures { table_in result.now ≡ world_in self.now }
    {
        &self.table
    }

    /// The answers of the world, as readings ask for them. It takes no memory. The call is for users of the library:
    /// the program does not make it.
    pub fn answers(&self) -> PlainWorldAnswers<'_>
        ensures { answers_in result ≡ world_in self.now }
    {
        PlainWorldAnswers { world: self }
    }

    /// The answer to a key. The only error is that memory runs out.
    pub fn ask(&self, alloc: Global, key: &Key) -> Result<Answer, AllocError>
        ensures { IfOk result (λ answer. answer_in answer ≡ spec.answer_by (world_in self.now) (key_of key.now)) }
    {
        self.ask_noted(alloc, key, &mut Looks::unkept(alloc))
    }

    /// The answer to a key; what is looked at for that is noted. The only error is that memory runs out.
    #[tactic(auto, using(pyc_names::proofs::NotedLemmas::noting))]
    pub fn ask_noted(
        &self,
        alloc: Global,
        key: &Key,
        looks: &mut Looks,
    ) -> Result<Answer, AllocError>
        ensures found { IfOk result (λ answer. answer_in answer
            ≡ spec.answer_by (world_in self.now) (key_of key.now)) }
        ensures looks { IfOk result (λ answer. noted_in looks.new ≡ with_looks (noted_in looks.old)
            (answer_looks (world_in self.now) (key_of key.now))) }
    {
        match key {
            Key::Class(class) => {
                note_order_of(class, looks)?;
                Ok(Answer::Mro(self.class_order(alloc, class)?))
            }
            Key::Member(name) => Ok(Answer::Member(self.member(alloc, name, looks)?)),
            _ => self.declarations().answer_noted(alloc, key, looks),
        }
    }

    /// What is declared in the files.
    pub(crate) fn declarations(&self) -> Declarations<'_>
        ensures { declarations_in result ≡ world_in self.now }
    {
        Declarations::new(&self.table)
    }

    /// The order of a class.
    fn class_order(&self, alloc: Global, class: &ClassId) -> Result<MroAnswer, AllocError>
        ensures { IfOk result (λ order. class_order_of order ≡ orders_by (world_in self.now) class.now) }
    {
        let lin = self.lin(class);
        Ok(MroAnswer {
            classes: copy_classes(alloc, lin.classes)?,
            unknown: lin.unknown,
            has_call: lin.has_call,
        })
    }
}

/// These classes once more.
fn copy_classes(alloc: Global, classes: &[ClassId]) -> Result<Vec<ClassId>, AllocError>
    ensures { IfOk result (λ copy. copy.items ≡ classes.now) }
{
    let mut copy = Vec::with_capacity(alloc, classes.len())?;
    for class in classes {
        copy.push(class.clone()?)?;
    }
    Ok(copy)
}
