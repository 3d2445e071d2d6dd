// What a tree is planned to fail at, and how it tells its steps.
ghost use Rattle.std.specs.Prelude.{true, ◌≡◌, ◌<◌, [], ◌∷◌, ◌++◌, IfErr, OnOk, OnErr, IsSome, None, vec_len};
ghost use Rattle.std.specs.Vec.{vec_capacity};
ghost use Rattle.fault_count.specs.Causes.{HasCause};
ghost use Rattle.fault_count.specs.Rose.{Rose};
ghost use Rattle.tree_fs.specs.Calls.{AddsMaybe, CanPut};
ghost use Rattle.tree_fs.specs.Spot.{spot_of};
ghost use Rattle.tree_fs.specs.Story.{disk_of, with_ops};
ghost use Rattle.tree_fs.specs.declared.op.Op.TheVariants.{Create, Fill};
ghost use Rattle.tree_fs.specs.declared.tree.TreeError.TheVariants.{Failed};
ghost use Rattle.tree_mem.specs.CanDo.{CanDo};
ghost use Rattle.tree_mem.specs.Failing.{next_failure};
ghost use Rattle.tree_mem.specs.MemStory.{mem_story, faults_of, failures_of, calls_of, KeepsPlan};
ghost use Rattle.tree_mem.specs.Plan.{next_call};

use crate::fail::{FailAt, planned};
use crate::mem_tree::MemTree;
use std::alloc::AllocError;
use tree_fs::{Bytes, Op, Place, TreeError};

impl MemTree {
    /// Plans failures of the calls of the trait from now on, in place of those planned before.
    /// `forget` is no such call.
    pub fn fail_at(&mut self, list: Vec<FailAt>)
        ensures plan { failures_of self.new ≡ list.items }
        ensures calls { calls_of self.new ≡ 0 }
        ensures story { mem_story self.new ≡ mem_story self.old }
        ensures faults { faults_of self.new ≡ faults_of self.old }
    {
        self.fails = list;
        self.calls = 0;
    }

    /// The steps since the story began, in their order.
    pub fn ops(&self) -> &[Op]
        ensures { result.now ≡ (mem_story self.now).ops }
    {
        &self.ops
    }
}

impl MemTree {
    /// Counts a call, and tells the failure that is planned for it.
    pub(crate) fn next_failure(&mut self) -> Option<bool>
        ensures planned { result ≡ next_failure self.old }
        ensures call { calls_of self.new ≡ next_call (calls_of self.old) }
        ensures plan { failures_of self.new ≡ failures_of self.old }
        ensures story { mem_story self.new ≡ mem_story self.old }
        ensures disk { self.new.disk ≡ self.old.disk }
        ensures faults { faults_of self.new ≡ faults_of self.old }
    {
        let call = self.calls;
        self.calls = call.saturating_add(1);
        planned(&self.fails, call)
    }

    /// The answer of a call that was done, where this failure is planned for it.
    pub(crate) fn answer(&mut self, failure: Option<bool>) -> Result<(), TreeError>
        ensures ok { OnOk result ((failure ≡ None) × (faults_of self.new ≡ faults_of self.old)) }
        ensures err { OnErr result (IsSome failure × Rose (faults_of self.old) (faults_of self.new)) }
        ensures failed { IfErr result (λ e. e ≡ Failed) }
        ensures cause { HasCause Failed (faults_of self.old) (faults_of self.new) result }
        ensures plan { KeepsPlan self.old self.new }
        ensures story { mem_story self.new ≡ mem_story self.old }
        ensures disk { self.new.disk ≡ self.old.disk }
    {
        if failure.is_some() {
            let _before = self.faults.get();
            self.faults.raise();
            return Err(TreeError::Failed);
        }
        Ok(())
    }

    // Keeps the present disk as the start of the story, if none is kept yet.
    fn keep_start(&mut self) -> Result<(), AllocError>
        ensures same { mem_story self.new ≡ mem_story self.old }
        ensures kept { OnOk result (IsSome self.new.start) }
        ensures faults { faults_of self.new ≡ faults_of self.old }
        ensures plan { KeepsPlan self.old self.new }
    {
        if self.start.is_none() {
            self.start = Some(self.disk.copy()?);
        }
        Ok(())
    }

    /// Does a step and tells it. After an error the story is as before.
    pub(crate) fn step(&mut self, op: Op) -> Result<(), AllocError>
        requires { CanDo (disk_of (mem_story self.old)) op }
        ensures ok { OnOk result (mem_story self.new ≡ with_ops (mem_story self.old) (op ∷ [])) }
        ensures err { OnErr result (mem_story self.new ≡ mem_story self.old) }
        ensures faults { faults_of self.new ≡ faults_of self.old }
        ensures plan { KeepsPlan self.old self.new }
    {
        self.keep_start()?;
        self.ops.reserve(1)?;
        self.disk.apply(self.alloc, &op)?;
        push_within(&mut self.ops, op);
        Ok(())
    }

    /// Puts a new file there with its bytes, in two steps. After an error perhaps only the first
    /// was done.
    pub(crate) fn put_file(&mut self, at: &Place, bytes: &[u8]) -> Result<(), AllocError>
        requires { CanPut (disk_of (mem_story self.old)) (spot_of at.now) }
        ensures ok { let told = Create at.now true ∷ Fill at.now bytes.now true ∷ [] in
            OnOk result (mem_story self.new ≡ with_ops (mem_story self.old) told) }
        ensures err { OnErr result (AddsMaybe (Create at.now) (mem_story self.old) (mem_story self.new)) }
        ensures faults { faults_of self.new ≡ faults_of self.old }
        ensures plan { KeepsPlan self.old self.new }
    {
        let create = Op::Create {
            at: at.copy()?,
            done: true,
        };
        let fill = Op::Fill {
            at: at.copy()?,
            bytes: Bytes::from_vec(Vec::from_clones(self.alloc, bytes)?),
            done: true,
        };
        self.step(create)?;
        self.step(fill)
    }
}

// Adds a step, for which there is room.
fn push_within(ops: &mut Vec<Op>, op: Op)
    requires { vec_len ops.old < vec_capacity ops.old }
    ensures { ops.new.items ≡ ops.old.items ++ op ∷ [] }
{
    if ops.push(op).is_err() {
        unreachable!();
    }
}
