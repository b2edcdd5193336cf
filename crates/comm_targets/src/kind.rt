/// What a target answers by.
#[derive(Clone, Copy, PartialEq, Eq, Debug)]
pub enum Kind {
    /// Sends each message back.
    Echo,
    /// Answers each message with how many came.
    Counter,
    /// Keeps the state of a Jupyter widget ('Jupyter widgets messaging protocol' 2.1.0).
    Widget,
    /// Keeps the state of a Jupyter widget, and repeats to the frontends what a frontend's update brought ('Jupyter
    /// widgets messaging protocol' 2.1.0, `echo_update`).
    WidgetEcho,
    /// Hands each message to the caller.
    Plain,
    /// Hands each message to the caller, as Plain does. A caller that has the message in hand needn't read its data for
    /// this manager.
    Opaque,
    /// Answers as its author likes, within what `Target` asks.
    Free,
}
