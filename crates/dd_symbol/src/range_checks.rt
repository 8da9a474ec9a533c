ghost use Rattle.std.specs.Prelude.{OnOk, IfErr};

use crate::code_rows::CodeRows;
use crate::refusals::Refusal;
use dd_model::Index;

impl CodeRows {
    ghost use Rattle.dd_symbol.specs.Images.{rows_of};
    ghost use Rattle.dd_symbol.specs.Refusals.{IsRowsFault};
    ghost use Rattle.dd_symbol.specs.Causes.{IndexBefore};
    ghost use Rattle.dd_symbol.specs.Conditions.{IsWithin, IsInvolutive};
    ghost use Rattle.dd_model.specs.Symbol.{AreInvolutions};

    /// Refuses images that are no chambers.
    fn check_range(&self, i: Index) -> Result<(), Refusal>
        requires before { IndexBefore (IsWithin (rows_of self.now)) i }
        ensures within { OnOk result (IsWithin (rows_of self.now) i) }
        ensures why { IfErr result (λ why. IsRowsFault (rows_of self.now) why) }
    {
        for k in 0..self.size() {
            let chamber = k + 1;
            if !self.has(self.image(i, chamber)) {
                return Err(Refusal::OpRange { i, chamber });
            }
        }
        Ok(())
    }

    /// Refuses a list that does not lead back.
    fn check_inverse(&self, i: Index) -> Result<(), Refusal>
        requires within { (j : Index) → IsWithin (rows_of self.now) j }
        requires before { IndexBefore (IsInvolutive (rows_of self.now)) i }
        ensures involutive { OnOk result (IsInvolutive (rows_of self.now) i) }
        ensures why { IfErr result (λ why. IsRowsFault (rows_of self.now) why) }
    {
        for k in 0..self.size() {
            let chamber = k + 1;
            let image = self.image(i, chamber);
            if self.image(i, image) != chamber {
                return Err(Refusal::NotInvolution { i, chamber });
            }
        }
        Ok(())
    }

    /// Refuses images that are not those of three involutions of the chambers.
    pub(crate) fn check(&self) -> Result<(), Refusal>
        ensures involutions { OnOk result (AreInvolutions (rows_of self.now)) }
        ensures why { IfErr result (λ why. IsRowsFault (rows_of self.now) why) }
    {
        for i in Index::ALL {
            self.check_range(i)?;
        }
        for i in Index::ALL {
            self.check_inverse(i)?;
        }
        Ok(())
    }
}
