//! What those ask for who speak HTTP, and what is answered: at the window, where a server is watched, and at the door,
//! where programs of the same machine put items in and read them. And the news that the door tells, and the WebSockets
//! of those who come from browsers.
#![tactic(auto)]

mod arrivals;
mod door_replies;
mod door_requests;
mod escapes;
mod framed;
mod frames;
mod framing;
mod listing;
mod replying;
mod requests;
mod upgrades;

pub use arrivals::{Arrivals, MOST_ARRIVALS};
pub use door_replies::{CHUNKS_END, DoorReply, DoorStatus, chunk_head, door_head};
pub use door_requests::{DoorAsked, DoorRequest, MOST_BODY, door_request_in};
pub use escapes::{QueryNumber, query_number, query_text, query_value, unescaped};
pub use framed::Framed;
pub use frames::{Stop, pieces_do_not_matter, whole_frames_give_their_payloads};
pub use framing::{Framing, control_frame};
pub use listing::{Listing, PAGE, range_between};
pub use replying::{refusal_text, response};
pub use requests::{Asked, MOST_HEAD, Request, path_of, request_in};
pub use upgrades::{MOST_UPGRADE, NoUpgrade, Upgrade, given_text, no_upgrade_text, upgrade_in};
