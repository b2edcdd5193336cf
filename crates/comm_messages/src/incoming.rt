use crate::body::Body;
use comm_value::Text;

/// A message that a frontend sends ('Messaging in Jupyter' 5.3, "Custom Messages").
#[derive(Drop)]
pub enum Incoming {
    /// `comm_open` asks to open a comm.
    Open {
        /// `content.comm_id`.
        id: Text,
        /// `content.target_name`.
        target: Text,
        /// `metadata.version`, if that is a string.
        version: Option<Text>,
        /// `content.data` and the buffers.
        body: Body,
    },
    /// `comm_msg` goes to an open comm.
    Msg {
        /// `content.comm_id`.
        id: Text,
        /// `content.data` and the buffers.
        body: Body,
    },
    /// `comm_close` closes a comm. Its data and its buffers are checked and dropped.
    Close {
        /// `content.comm_id`.
        id: Text,
    },
    /// `comm_info_request` asks for the open comms ("Comm info").
    InfoRequest {
        /// `content.target_name`, which restricts the list to one target.
        target: Option<Text>,
    },
}
