//! Queries with cookies, what becomes of replies, and a World with cookies over a script.

mod badcookies;
mod bytes;
mod links;
mod messages;
mod off_path;
mod playing;
mod queries;
mod replies;
mod rows;
mod rules;
mod servers;
