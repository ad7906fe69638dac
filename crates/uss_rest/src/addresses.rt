ghost use Rattle.std.specs.Prelude.{◌≡◌, None, Ok, IfOk};
ghost use Rattle.url.specs.Parser.{parse_url};
ghost use Rattle.uss_rest.specs.Addresses as spec;
ghost use Rattle.uss_rest.specs.Addresses.{IsAddressOf};

use std::alloc::{AllocError, Global};
use url::{ParseError, Url, quirks};
use uss_intent::Base;

/// Where the messages to a base URL go.
#[derive(Debug, Drop)]
pub struct Address {
    /// The host, as a dial reaches it.
    pub host: String,
    /// The port: 80 where the URL has none.
    pub port: u16,
    /// The value of the field `Host`: the host, and after a colon the port where the URL has one.
    pub named: String,
    /// What stands before the path of a call: the path of the URL, and nothing where that is `/`.
    pub prefix: String,
}

fn url_of(alloc: Global, base: &Base) -> Result<Url, AllocError>
    ensures { IfOk result (λ url. parse_url None base.now ≡ Ok url) }
{
    match Url::parse(alloc, base.as_str()) {
        Ok(url) => Ok(url),
        Err(ParseError::OutOfMemory | ParseError::Overflow) => Err(AllocError),
        Err(_) => unreachable!(),
    }
}

fn prefix_of(url: &Url) -> &str
    ensures { result.now ≡ spec.prefix_in url.now }
{
    let path = url.path();
    if path == "/" { "" } else { path }
}

fn host_of(url: &Url) -> &str
    ensures { result.now ≡ spec.host_in url.now }
{
    match url.host_str() {
        Some(host) => host,
        None => "",
    }
}

fn port_of(url: &Url) -> u16
    ensures { result ≡ spec.port_in url.now }
{
    url.port().unwrap_or(80)
}

impl Address {
    /// The address of a base URL. Its one error is that there is no memory.
    pub fn of(alloc: Global, base: &Base) -> Result<Address, AllocError>
        ensures { IfOk result (IsAddressOf base.now) }
    {
        let url = url_of(alloc, base)?;
        Ok(Address {
            host: String::from_str(alloc, host_of(&url))?,
            port: port_of(&url),
            named: String::from_str(alloc, quirks::host(&url))?,
            prefix: String::from_str(alloc, prefix_of(&url))?,
        })
    }
}
