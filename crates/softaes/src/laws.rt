//! Laws that join several calls: the whole cipher is undone, both paths agree, and each table word has its
//! rule.

pub mod cipher;
pub mod paths;
pub mod tables;
