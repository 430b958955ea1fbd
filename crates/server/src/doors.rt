//! Where a server listens: for sessions, and for those who watch it.

use crate::asked::Serving;
use crate::watching::{Beginning, Window, open_window};
use io_core::{Watched, WriterFailed, write_output};
use printing_core::{Refusal, listening_line, tell_address};
use settings_core::{Address, NO_ADDRESS, address_of};
use std::alloc::Global;
use std::io::Write;
use std::net::{Net, SocketAddr, TcpListener, TcpStream};
use std::rt::Files;
use std::time::Clock;
use tcp_front::{Limits, ListenFault, Listener, listen, listen_unix};

/// Listens at the address of this word. Else 60 or 90.
pub fn listen_at<'a, R>(
    rt: &'a R,
    word: &'a str,
    connections: Option<u32>,
    limits: Limits,
) -> Result<Listener<'a, R>, ListenFault>
where
    R: Files + Net<Listener = TcpListener, Stream = TcpStream> + Clock + AllocGlobal,
{
    match address_of(word) {
        Address::Tcp(address) => listen(rt, address, connections, limits),
        Address::Unix(path) => listen_unix(rt, path, connections, limits),
    }
}

/// Says at once that this address is listened at. Where the system chose the port, the real address goes to standard
/// error.
fn announce<O: Write, E: Write>(
    alloc: Global,
    address: &str,
    real: Option<SocketAddr>,
    out: &mut O,
    err: &mut E,
) -> Result<(), Refusal<'static>> {
    let line = listening_line(alloc, address)?;
    write_output(&mut Watched::new(&mut *out), line.as_bytes())?;
    out.flush().map_err(|_| WriterFailed)?;
    if address.ends_with(":0") {
        tell_address(err, real);
    }
    Ok(())
}

/// Where a server listens: for sessions, if peers may call, and for those who watch it, if there is a window.
#[derive(Drop)]
pub struct Doors<'a, R> {
    pub listener: Option<Listener<'a, R>>,
    pub window: Option<Window<'a, R>>,
}

impl<R> Doors<'_, R> {
    /// Removes the files of its sockets, if they have any.
    pub fn remove_files<F: Files>(&self, rt: &F) {
        if let Some(listener) = &self.listener {
            listener.remove_file(rt);
        }
        if let Some(window) = &self.window {
            window.remove_file(rt);
        }
    }

    /// The real address at which browsers connect, if it is known.
    fn pages_address(&self, serving: &Serving<'_>) -> Option<SocketAddr> {
        match &self.listener {
            Some(listener) if is_alone(serving) => listener.local_addr(),
            Some(listener) => listener.second_addr(),
            None => None,
        }
    }

    /// The real address at which peers call, if it is known.
    fn real_address(&self) -> Option<SocketAddr> {
        match &self.listener {
            Some(listener) => listener.local_addr(),
            None => None,
        }
    }
}

/// Says at which address browsers connect, if they may. Where the system chose the port, the real address goes to
/// standard error.
fn announce_pages<O: Write, E: Write>(
    alloc: Global,
    pages: Option<&str>,
    real: Option<SocketAddr>,
    out: &mut O,
    err: &mut E,
) -> Result<(), Refusal<'static>> {
    let Some(address) = pages else {
        return Ok(());
    };
    let line = format!(in alloc; "websocket {address}\n")?;
    write_output(&mut Watched::new(&mut *out), line.as_bytes())?;
    out.flush().map_err(|_| WriterFailed)?;
    if !address.ends_with(":0") {
        return Ok(());
    }
    if let Some(real) = real {
        let _told = writeln!(err, "websocket {real}");
    }
    Ok(())
}

/// Says at which addresses a server listens: that of sessions, that of browsers, and that of the window, if there are
/// such.
fn announce_doors<R, O: Write, E: Write>(
    alloc: Global,
    serving: &Serving<'_>,
    doors: &Doors<'_, R>,
    out: &mut O,
    err: &mut E,
) -> Result<(), Refusal<'static>> {
    announce(alloc, serving.address, doors.real_address(), out, err)?;
    announce_pages(
        alloc,
        serving.pages.address,
        doors.pages_address(serving),
        out,
        err,
    )?;
    if let Some(window) = &doors.window {
        window.announce(alloc, out, err)?;
    }
    Ok(())
}

/// Where a server listens for browsers, if it does. Else 60 or 90.
fn open_for_pages<'a, R>(
    rt: &'a R,
    serving: Serving<'a>,
    limits: Limits,
) -> Result<Option<Listener<'a, R>>, Refusal<'a>>
where
    R: Files + Net<Listener = TcpListener, Stream = TcpStream> + Clock + AllocGlobal,
{
    let Some(address) = serving.pages.address else {
        return Ok(None);
    };
    match listen_at(rt, address, serving.sessions, limits) {
        Ok(listener) => Ok(Some(listener.for_pages(serving.pages.origins.unwrap_or(""))?)),
        Err(fault) => Err(Refusal::of_listen(address, fault)),
    }
}

/// Whether a server listens nowhere for peers that are no browsers.
fn is_alone(serving: &Serving<'_>) -> bool {
    let may_be = serving.calling.partners.is_some() || serving.pages.address.is_some();
    may_be && serving.address == NO_ADDRESS
}

/// Where a server listens for sessions, which does so for browsers already, if it is to.
fn open_with_pages<'a, R>(
    rt: &'a R,
    serving: Serving<'a>,
    pages: Option<Listener<'a, R>>,
    limits: Limits,
) -> Result<Option<Listener<'a, R>>, Refusal<'a>>
where
    R: Files + Net<Listener = TcpListener, Stream = TcpStream> + Clock + AllocGlobal,
{
    if is_alone(&serving) {
        return Ok(pages);
    }
    let address = serving.address;
    match (listen_at(rt, address, serving.sessions, limits), pages) {
        (Ok(listener), None) => Ok(Some(listener)),
        (Ok(listener), Some(pages)) => Ok(Some(listener.beside(pages))),
        (Err(fault), pages) => {
            if let Some(pages) = &pages {
                pages.remove_file(rt);
            }
            Err(Refusal::of_listen(address, fault))
        }
    }
}

/// Where a server listens for sessions: nowhere, if it has partners and nobody may call. Else 60 or 90.
fn open_listener<'a, R>(
    rt: &'a R,
    serving: Serving<'a>,
) -> Result<Option<Listener<'a, R>>, Refusal<'a>>
where
    R: Files + Net<Listener = TcpListener, Stream = TcpStream> + Clock + AllocGlobal,
{
    let limits = Limits {
        patience: serving.limits.patience,
        most_bytes: serving.limits.most_bytes,
    };
    let pages = open_for_pages(rt, serving, limits)?;
    open_with_pages(rt, serving, pages, limits)
}

/// Opens the window of a server that listens there already, if one is asked for. Else 60 or 90; and no file of a socket
/// is left.
fn open_beside<'a, R>(
    rt: &'a R,
    serving: Serving<'a>,
    beginning: Beginning<'a>,
    listener: Option<Listener<'a, R>>,
) -> Result<Doors<'a, R>, Refusal<'a>>
where
    R: Files + Net<Listener = TcpListener, Stream = TcpStream> + Clock + AllocGlobal,
{
    match open_window(rt, serving.watching.metrics, beginning) {
        Ok(window) => Ok(Doors { listener, window }),
        Err(refusal) => {
            if let Some(listener) = &listener {
                listener.remove_file(rt);
            }
            Err(refusal)
        }
    }
}

/// Listens at the addresses of a server, and says so. Else 60, 90 or `io write`; and no file of a socket is left.
pub fn open_doors<'a, R, O: Write, E: Write>(
    rt: &'a R,
    serving: Serving<'a>,
    beginning: Beginning<'a>,
    out: &mut O,
    err: &mut E,
) -> Result<Doors<'a, R>, Refusal<'a>>
where
    R: Files + Net<Listener = TcpListener, Stream = TcpStream> + Clock + AllocGlobal,
{
    let listener = open_listener(rt, serving)?;
    let doors = open_beside(rt, serving, beginning, listener)?;
    match announce_doors(rt.alloc(), &serving, &doors, out, err) {
        Ok(()) => Ok(doors),
        Err(refusal) => {
            doors.remove_files(rt);
            Err(refusal)
        }
    }
}
