use crate::answer::Answer;
use crate::event::Event;
use crate::fault::TargetFault;
use crate::kind::Kind;
use crate::target::Target;
use comm_value::Dict;

/// A boxed target is the target in the box.
impl Target for Box<dyn Target> {
    ghost means = { λ b. (Target-box b).means b.value };

    fn kind(&self) -> Kind {
        (**self).kind()
    }

    fn notes(&self) -> u64 {
        (**self).notes()
    }

    fn idle(&self) -> bool {
        (**self).idle()
    }

    fn prepare(&mut self, event: &Event, now: Option<&Dict>) -> Result<Answer, TargetFault> {
        (**self).prepare(event, now)
    }

    fn commit(&mut self) {
        (**self).commit();
    }

    fn abandon(&mut self) {
        (**self).abandon();
    }

    fn close(&mut self, id: &str) {
        (**self).close(id);
    }

    fn stop(&mut self) {
        (**self).stop();
    }
}
