ghost use Rattle.op_set.specs.Sides.{AreNamed, IsNamed, lends_right as has_right_rows, lent_labels as labels_lent};
ghost use Rattle.std.specs.Prelude.{◌≡◌, [], Some, length, slice_get, if◌then◌else◌, IfOk, OnOk};
ghost use Rattle.step_put.specs.Placed.{IsPlaced};

use func_table::SetOp;
use label_set::{Labels, Pairing};
use std::alloc::{AllocError, Global};
use step_batch::StepBuffer;
use step_put::{Left, Placing};

/// Labels of a side that was fed. Beside each stand the number of their signature and, where rows of the side may be lent,
/// their own place among the labels that are lent.
#[derive(Drop)]
pub(crate) struct Side {
    pub signed: Placing,
    pub own: Placing,
}

/// What rows of two sides are matched and lent by. The place of labels in the buffer of signatures, which has no steps, is the
/// number of that signature.
#[derive(Drop)]
pub(crate) struct Naming {
    pub op: SetOp,
    pub pairing: Pairing,
    pub signatures: StepBuffer,
    pub left: Side,
    pub right: Side,
}

/// Whether rows of the right side are lent too.
fn lends_right(op: SetOp) -> bool
    ensures { result ≡ has_right_rows op }
{
    match op {
        SetOp::And | SetOp::Unless => false,
        SetOp::Or => true,
    }
}

/// The labels of a side whose rows may be lent.
fn lent_labels(lends: bool, labels: &[Labels]) -> &[Labels]
    ensures { result.now ≡ labels_lent lends labels.now }
{
    if lends { labels } else { labels.split_at(0).0 }
}

/// Whether a buffer has more than twice as many labels as are fed.
fn is_crowded(buffer: &StepBuffer, fed: usize) -> bool {
    buffer.lend().labels().len() / 2 > fed
}

impl Side {
    /// Nothing is fed yet.
    fn new(alloc: Global, pairing: &Pairing) -> Result<Side, AllocError>
        ensures { IfOk result (λ side. (lends : _) (signatures labels : _) → IsNamed pairing.now lends signatures labels side) }
    {
        let left = Left::Signature {
            on: pairing.on,
            names: pairing.names.copy()?,
        };
        Ok(Side {
            signed: Placing::new(alloc, left),
            own: Placing::new(alloc, Left::All),
        })
    }

    /// Forgets what was fed. It takes no memory.
    fn forget(&mut self)
        ensures signed { self.new.signed ≡ record { left = self.old.signed.left; fed = []; places = [] } }
        ensures own { self.new.own ≡ record { left = self.old.own.left; fed = []; places = [] } }
    {
        self.signed.forget();
        self.own.forget();
    }

    /// Takes the labels that are fed. The only error is want of memory; then none are fed.
    fn take(
        &mut self,
        lends: bool,
        signatures: &mut StepBuffer,
        lent: &mut StepBuffer,
        labels: &[Labels],
    ) -> Result<(), AllocError>
        requires signed { IsPlaced signatures.old self.old.signed }
        requires own { IsPlaced lent.old self.old.own }
        ensures signed { IsPlaced signatures.new self.new.signed }
        ensures own { IsPlaced lent.new self.new.own }
        ensures signed_left { self.new.signed.left ≡ self.old.signed.left }
        ensures own_left { self.new.own.left ≡ self.old.own.left }
        ensures fed { OnOk result (self.new.signed.fed ≡ labels.now) }
        ensures lent { self.new.own.fed ≡ labels_lent lends self.new.signed.fed }
        ensures signatures { (j : _) (names : _) → slice_get signatures.old.labels j ≡ Some names → slice_get signatures.new.labels j ≡ Some names }
        ensures kept { (j : _) (names : _) → slice_get lent.old.labels j ≡ Some names → slice_get lent.new.labels j ≡ Some names }
        ensures steps { lent.new.steps ≡ lent.old.steps }
    {
        let taken = self.take_each(lends, signatures, lent, labels);
        if taken.is_err() {
            self.forget();
        }
        taken
    }

    /// Takes the labels that are fed, by their signature and as they are.
    fn take_each(
        &mut self,
        lends: bool,
        signatures: &mut StepBuffer,
        lent: &mut StepBuffer,
        labels: &[Labels],
    ) -> Result<(), AllocError>
        requires signed { IsPlaced signatures.old self.old.signed }
        requires own { IsPlaced lent.old self.old.own }
        ensures signed { IsPlaced signatures.new self.new.signed }
        ensures own { IsPlaced lent.new self.new.own }
        ensures signed_left { self.new.signed.left ≡ self.old.signed.left }
        ensures own_left { self.new.own.left ≡ self.old.own.left }
        ensures fed { OnOk result (self.new.signed.fed ≡ labels.now) }
        ensures lent { OnOk result (self.new.own.fed ≡ labels_lent lends labels.now) }
        ensures signatures { (j : _) (names : _) → slice_get signatures.old.labels j ≡ Some names → slice_get signatures.new.labels j ≡ Some names }
        ensures kept { (j : _) (names : _) → slice_get lent.old.labels j ≡ Some names → slice_get lent.new.labels j ≡ Some names }
        ensures steps { lent.new.steps ≡ lent.old.steps }
    {
        self.signed.take(signatures, labels)?;
        self.own.take(lent, lent_labels(lends, labels))
    }
}

impl Naming {
    /// Nothing is fed yet.
    pub(crate) fn new(alloc: Global, op: SetOp, pairing: Pairing) -> Result<Naming, AllocError>
        ensures op { IfOk result (λ n. n.op ≡ op) }
        ensures pairing { IfOk result (λ n. n.pairing ≡ pairing) }
        ensures named { IfOk result (λ n. (labels : _) → AreNamed n labels) }
    {
        let left = Side::new(alloc, &pairing)?;
        let right = Side::new(alloc, &pairing)?;
        Ok(Naming {
            op,
            pairing,
            signatures: StepBuffer::new(alloc),
            left,
            right,
        })
    }

    /// How many signatures there are.
    pub(crate) fn count(&self) -> usize
        ensures { result ≡ length self.now.signatures.labels }
    {
        self.signatures.lend().labels().len()
    }

    /// Takes all steps out of what is lent, and names the labels that are fed. Those that equal the ones fed before at the same
    /// place of their side keep their names. The only error is want of memory; then a next feed may follow all the same.
    pub(crate) fn renew(
        &mut self,
        lent: &mut StepBuffer,
        left: &[Labels],
        right: &[Labels],
    ) -> Result<(), AllocError>
        requires named { AreNamed self.old lent.old.labels }
        ensures op { self.new.op ≡ self.old.op }
        ensures pairing { self.new.pairing ≡ self.old.pairing }
        ensures named { AreNamed self.new lent.new.labels }
        ensures left { OnOk result (self.new.left.signed.fed ≡ left.now) }
        ensures right { OnOk result (self.new.right.signed.fed ≡ right.now) }
        ensures steps { lent.new.steps ≡ [] }
    {
        self.begin(lent, left.len().saturating_add(right.len()));
        let lends = lends_right(self.op);
        self.left.take(true, &mut self.signatures, lent, left)?;
        self.right.take(lends, &mut self.signatures, lent, right)
    }

    /// Takes all steps out of what is lent. Where there are more than twice as many signatures or labels that are lent as are
    /// fed on both sides, these are taken out too and all names are forgotten, so that they don't grow with the number of
    /// feeds.
    fn begin(&mut self, lent: &mut StepBuffer, fed: usize)
        requires named { AreNamed self.old lent.old.labels }
        ensures op { self.new.op ≡ self.old.op }
        ensures pairing { self.new.pairing ≡ self.old.pairing }
        ensures named { AreNamed self.new lent.new.labels }
        ensures steps { lent.new.steps ≡ [] }
    {
        lent.renew();
        if !(is_crowded(&self.signatures, fed) || is_crowded(lent, fed)) {
            return;
        }
        self.signatures.clear();
        lent.clear();
        self.left.forget();
        self.right.forget();
    }
}
