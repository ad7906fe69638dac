/// What an entry of a book says to notices.
#[derive(Clone, Copy, Debug)]
pub enum NoticeChange {
    /// The job's ticket was heard to be there.
    TicketOpened {
        job: u64,
    },
    /// The job is closed.
    Closed {
        job: u64,
        /// Whose the job is.
        flight: u64,
        /// It recorded something.
        landed: bool,
        /// The flight has ended with it.
        ended: bool,
        /// Its ticket was heard as gone.
        gone: bool,
        /// How many notifications it owes.
        owed: u32,
    },
    /// The ticket of a closed job was heard as gone.
    Gone {
        job: u64,
    },
    /// A notification was answered.
    Sent {
        job: u64,
        index: u32,
    },
}
